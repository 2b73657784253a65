// Lowering on lent words: what the entries keep of a table that has passed refusals 1 to 9.
#![tactic(auto)]

ghost use Rattle.std.specs.Prelude.{◌≡◌, ℕ, ◌+◌, ◌*◌, ◌<◌, ◌≤◌, eqb, leb, length, get_or, replicate, IfOk};
ghost use Rattle.word.specs.Words.{flag};
ghost use Rattle.refusal.specs.Numbers.{refused_number, refused_row};
ghost use Rattle.refusal.specs.declared.Refusal.TheVariants.{Room};
ghost use Rattle.table.specs.Check.{answer, table_refusal};
ghost use Rattle.table.specs.Kinds.{kind_number};
ghost use Rattle.table.specs.Rows.{kind_at, size};
ghost use Rattle.table.specs.Bodies.{arg_of};
ghost use Rattle.table.specs.Scan.{body_of, home, reads};
ghost use Rattle.lowered.specs.Lower.{start_total, result_total, plain_nodes, plain_wires};
ghost use Rattle.laid.specs.Bases.{node_base, wire_base};
ghost use Rattle.carrying.specs.Facts.{noted-prop};
ghost use Rattle.carrying.specs.Kept.{Passing, Bodies, Pairs, PairsBefore, Uses, Noted, Counted, Bases as BasesOf, Low, home_from};

use refusal::{Refusal, Refused};
use table::Kind;

// A table that passes refusals 1 to 9, with its row count.
#[derive(Clone, Copy)]
pub struct Passed<'a> {
    pub words: &'a [u32],
    pub rows: u32,
    pub ghost passing: { Passing words.now rows },
}

// What is noted of row r.
pub fn noted_at(notes: &[u32; 512], r: u32) -> u32
    requires { r < 512 }
    ensures { result ≡ get_or notes.now r 0 }
{
    notes[r as usize]
}

// How many nodes and wires there are before forks.
#[derive(Clone, Copy)]
pub struct Plain {
    pub nodes: u32,
    pub wires: u32,
}

// The first node and the first output of each row, and how many there are of both.
#[derive(Clone, Copy)]
pub struct Bases {
    pub nodes: [u32; 512],
    pub wires: [u32; 512],
    pub plain: Plain,
}

// 1 where a row of this kind is a start, else 0.
fn start_of(kind: Kind) -> u32
    ensures { (result ≡ flag (leb (kind_number kind) 1)) × (result ≤ 1) }
{
    match kind {
        Kind::Input | Kind::Const => 1,
        _ => 0,
    }
}

// 1 where a row of this kind is a result, else 0.
fn result_of(kind: Kind) -> u32
    ensures { (result ≡ flag (eqb (kind_number kind) 8)) × (result ≤ 1) }
{
    match kind {
        Kind::Out => 1,
        _ => 0,
    }
}

impl Bases {
    pub fn zero() -> Self
        ensures { (result.nodes ≡ replicate 512 0) × (result.wires ≡ replicate 512 0) }
    {
        Bases {
            nodes: [0; 512],
            wires: [0; 512],
            plain: Plain { nodes: 0, wires: 0 },
        }
    }
}

impl<'a> Passed<'a> {
    // A table that is refused by none of 1 to 9.
    pub fn check(words: &'a [u32]) -> Result<Self, Refused>
        ensures answer { answer (refused_number result) (refused_row result) ≡ table_refusal words.now }
        ensures words { IfOk result (λ p. p.words.now ≡ words.now) }
    {
        table::check_rows(words)?;
        Ok(Passed {
            words,
            rows: (words.len() / 6) as u32,
        })
    }

    // The refusal of a table whose graph has no room.
    pub fn crowded(&self) -> Refused
        ensures { (result.why ≡ Room) × (result.row ≡ self.now.rows) }
    {
        Refused {
            why: Refusal::Room,
            row: self.rows,
        }
    }

    pub fn kind(&self, r: u32) -> Kind
        requires { r < self.now.rows }
        ensures { kind_number result ≡ kind_at self.now.words.now r }
    {
        Kind::try_from(table::kind_at(self.words, r)).unwrap()
    }

    // How many starts there are.
    pub fn count_starts(&self) -> u32
        ensures { (result ≡ start_total self.now.words.now) × (result ≤ 512) }
    {
        let mut count = 0;
        for r in 0..self.rows {
            count += start_of(self.kind(r));
        }
        count
    }

    // How many results there are.
    pub fn count_results(&self) -> u32
        ensures { (result ≡ result_total self.now.words.now) × (result ≤ 512) }
    {
        let mut count = 0;
        for r in 0..self.rows {
            count += result_of(self.kind(r));
        }
        count
    }

    // How many nodes row r has.
    fn nodes_of(&self, counts: &[u32; 512], r: u32) -> u32
        requires { Counted self.now.words.now counts.now × (r < self.now.rows) }
        ensures { (node_base self.now.words.now (r + 1) ≡ node_base self.now.words.now r + result) × (result ≤ 2000) }
    {
        match self.kind(r) {
            Kind::Op | Kind::Pick => 1,
            Kind::For => 3 + 2 * counts[r as usize],
            Kind::Arg => 2,
            _ => 0,
        }
    }

    // How many outputs the nodes of row r have.
    fn wires_of(&self, counts: &[u32; 512], r: u32) -> u32
        requires { Counted self.now.words.now counts.now × (r < self.now.rows) }
        ensures { (wire_base self.now.words.now (r + 1) ≡ wire_base self.now.words.now r + result) × (result ≤ 2000) }
    {
        match self.kind(r) {
            Kind::Op | Kind::Pick => 1,
            Kind::For => 5 + 3 * counts[r as usize],
            Kind::Arg => 3,
            _ => 0,
        }
    }

    // The first node and the first output of each row, where each loop carries so many values.
    pub fn note_bases(&self, starts: u32, counts: &[u32; 512]) -> Bases
        requires { (starts ≡ start_total self.now.words.now) × Counted self.now.words.now counts.now }
        ensures { BasesOf self.now.words.now result.nodes result.wires × (result.plain.nodes ≡ plain_nodes self.now.words.now) × (result.plain.wires ≡ plain_wires self.now.words.now) × Low result.wires }
    {
        let mut nodes = [0u32; 512];
        let mut wires = [0u32; 512];
        let mut node = 0;
        let mut wire = starts;
        for r in 0..self.rows {
            nodes[r as usize] = node;
            wires[r as usize] = wire;
            node += self.nodes_of(counts, r);
            wire += self.wires_of(counts, r);
        }
        Bases {
            nodes,
            wires,
            plain: Plain {
                nodes: node,
                wires: wire,
            },
        }
    }

    // The body before the row behind r: a FOR opens its own, an END leads back to the one around, every other row stays.
    fn body_after(&self, bodies: &[u32; 512], r: u32, b: u32) -> u32
        requires { Bodies self.now.words.now r bodies.now × (r < self.now.rows) × (b ≡ body_of self.now.words.now r) }
        ensures { result ≡ body_of self.now.words.now (r + 1) }
    {
        match self.kind(r) {
            Kind::For => r,
            Kind::End => noted_at(bodies, b),
            _ => b,
        }
    }

    // The body before each row.
    fn note_bodies(&self) -> [u32; 512]
        ensures { Bodies self.now.words.now self.now.rows result }
    {
        let mut bodies = [0u32; 512];
        let mut b = self.rows;
        for r in 0..self.rows {
            bodies[r as usize] = b;
            b = self.body_after(&bodies, r, b);
        }
        bodies
    }

    // Links row r's operands, each behind the last one that names the same value.
    fn note_row_uses(&self, heads: &mut [u32; 512], links: &mut [u32; 1536], r: u32)
        requires { (r < self.now.rows) × Uses self.now.words.now (3 * r) heads.old links.old }
        ensures { Uses self.now.words.now (3 * (r + 1)) heads.new links.new }
    {
        let m = table::operand_count(self.kind(r).number());
        for j in 0..m {
            let v = table::operand_at(self.words, r, j);
            links[(3 * r + j) as usize] = heads[v as usize];
            heads[v as usize] = 3 * r + j + 1;
        }
    }

    // For every value the operands that name it, linked, last first.
    fn note_uses(&self, heads: &mut [u32; 512], links: &mut [u32; 1536])
        requires { (length heads.old ≡ 512) × (length links.old ≡ 1536) × ((v : ℕ) → v < 512 → get_or heads.old v 0 ≡ 0) }
        ensures { Uses self.now.words.now (3 * self.now.rows) heads.new links.new }
    {
        for r in 0..self.rows {
            self.note_row_uses(heads, links, r);
        }
    }

    // The ARG that NEXT r serves: the one behind that of the NEXT before it, or the first of the loop.
    fn served_by(&self, bodies: &[u32; 512], pairs: &[u32; 512], r: u32) -> u32
        requires { Bodies self.now.words.now self.now.rows bodies.now × PairsBefore self.now.words.now r pairs.now × (r < self.now.rows) × (kind_at self.now.words.now r ≡ 6) }
        ensures { result ≡ arg_of self.now.words.now r }
    {
        let before = r - 1;
        match self.kind(before) {
            Kind::Next => pairs[before as usize] + 1,
            _ => bodies[r as usize] + 1,
        }
    }

    // Pairs row r with its ARG where it is a NEXT.
    fn pair_row(&self, bodies: &[u32; 512], pairs: &mut [u32; 512], r: u32)
        requires { Bodies self.now.words.now self.now.rows bodies.now × PairsBefore self.now.words.now r pairs.old × (r < self.now.rows) }
        ensures { PairsBefore self.now.words.now (r + 1) pairs.new }
    {
        if let Kind::Next = self.kind(r) {
            let a = self.served_by(bodies, pairs, r);
            pairs[r as usize] = a;
            pairs[a as usize] = r;
        }
    }

    // The ARG that each NEXT serves, and the NEXT that serves each ARG.
    fn note_pairs(&self, bodies: &[u32; 512]) -> [u32; 512]
        requires { Bodies self.now.words.now self.now.rows bodies.now }
        ensures { Pairs self.now.words.now result }
    {
        let mut pairs = [0u32; 512];
        for r in 0..self.rows {
            self.pair_row(bodies, &mut pairs, r);
        }
        pairs
    }
}

// What is noted of a table before anything is counted: the body before each row, the ARG that each NEXT serves and the NEXT that serves each ARG,
// and for every value the operands that name it, linked, last first.
#[derive(Clone, Copy)]
pub struct Notes<'a> {
    pub passed: Passed<'a>,
    pub bodies: [u32; 512],
    pub pairs: [u32; 512],
    pub heads: [u32; 512],
    pub links: [u32; 1536],
    pub ghost noted: { Noted passed.words.now passed.rows bodies pairs heads links } by { noted-prop _ _ _ _ _ _ },
}

impl<'a> Notes<'a> {
    pub fn new(passed: Passed<'a>) -> Self
        ensures { result.passed ≡ passed.entry }
    {
        let bodies = passed.note_bodies();
        let pairs = passed.note_pairs(&bodies);
        let mut heads = [0u32; 512];
        let mut links = [0u32; 1536];
        passed.note_uses(&mut heads, &mut links);
        Notes {
            passed,
            bodies,
            pairs,
            heads,
            links,
        }
    }

    // The body of row v's value.
    pub fn home_of(&self, v: u32) -> u32
        requires { v < self.now.passed.rows }
        ensures { result ≡ home self.now.passed.words.now v }
    {
        match self.passed.kind(v) {
            Kind::Input | Kind::Const => self.passed.rows,
            Kind::For => v,
            Kind::Next => noted_at(&self.bodies, noted_at(&self.bodies, v)),
            _ => noted_at(&self.bodies, v),
        }
    }

    // The body in which row r's operands are read.
    pub fn reads_of(&self, r: u32) -> u32
        requires { r < self.now.passed.rows }
        ensures { result ≡ reads self.now.passed.words.now r }
    {
        let around = noted_at(&self.bodies, r);
        match self.passed.kind(r) {
            Kind::Arg => noted_at(&self.bodies, around),
            _ => around,
        }
    }

    // The number of row v's wire at home, from the first output of each row.
    pub fn home_wire(&self, wires: &[u32; 512], v: u32) -> u32
        requires { Low wires.now × (v < self.now.passed.rows) × (kind_at self.now.passed.words.now v ≤ 6) }
        ensures { result ≡ home_from self.now.passed.words.now wires.now v }
    {
        match self.passed.kind(v) {
            Kind::Input | Kind::Const => v,
            Kind::Op | Kind::Pick => wires[v as usize],
            Kind::For => wires[v as usize] + 2,
            Kind::Arg => wires[v as usize] + 1,
            _ => wires[self.pairs[v as usize] as usize] + 2,
        }
    }
}
