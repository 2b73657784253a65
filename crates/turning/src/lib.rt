// What a walk of the rows does to their words. They stand in 512 lent words, row r's at r. A table has passed refusals 1 to 9 here.
#![tactic(auto)]

ghost use Rattle.std.specs.Prelude.{◌≡◌, ◌+◌, ◌-◌, ◌<◌, ◌≤◌, cond, eqb, length, set};
ghost use Rattle.std.proofs.lemmas.List.Edits.{sets};
ghost use Rattle.word.specs.Words.{operate};
ghost use Rattle.table.specs.Rows.{kind_at, word, size};
ghost use Rattle.table.specs.Kinds.{kind_number};
ghost use Rattle.table.specs.Counted.{rows_of};
ghost use Rattle.table.specs.Bodies.{first_of};
ghost use Rattle.reading.specs.Reading.{set_row, choose, first_words, results_from, turn, leave, named, next_named, arg_named};
ghost use Rattle.turning.specs.Words.{Passes, env_of, Names, placed, copied, Source, Aside, Copies, WholeLoop, Ends, body_after, note_at, note_of, one_more};

use table::Kind;

// A table that passes, with its row count.
#[derive(Clone, Copy)]
pub struct Rows<'a> {
    pub table: &'a [u32],
    pub size: u32,
    pub ghost passes: { Passes table.now size },
}

// The same, with where its loops end: the END of the loop at row l is noted at l.
#[derive(Drop)]
pub struct Loops<'a> {
    pub rows: Rows<'a>,
    pub ends: [u32; 512],
    pub ghost noted: { Ends rows.table.now ends },
}

// Where a loop stands: its FOR's row, the row behind its ARGs, and its END.
#[derive(Clone, Copy, Debug, PartialEq, Eq)]
pub struct Loop {
    pub row: u32,
    pub first: u32,
    pub end: u32,
}

// Words of rows.

// The word of row r.
pub fn word_of(words: &[u32], r: u32) -> u32
    requires { r < length words.now }
    ensures { result ≡ env_of words.now r }
{
    words[r as usize]
}

// Row r has this word from now on.
pub fn set_row(words: &mut [u32; 512], r: u32, word: u32)
    requires { r < 512 }
    ensures { env_of words.new ≡ set_row r word (env_of words.old) }
{
    words[r as usize] = word;
}

fn put_back(words: &mut [u32; 512], aside: &[u32; 512], to: u32, k: u32)
    requires { to + k ≤ 512 }
    ensures { env_of words.new ≡ placed to k (env_of aside.now) (env_of words.old) }
{
    for j in 0..k {
        words[(to + j) as usize] = word_of(aside, j);
    }
}

// One word if the flag is 1, the other if it is 0.
fn choose(flag: u32, x: u32, y: u32) -> u32
    ensures { result ≡ choose flag x y }
{
    if flag == 0 { y } else { x }
}

// One more where a row of this kind is the one that is counted.
fn one_more(kind: Kind, counted: Kind, n: usize) -> usize
    requires { n ≤ 512 }
    ensures { result ≡ one_more (kind_number kind) (kind_number counted) n }
{
    if kind == counted { n + 1 } else { n }
}

// Where loops end.

// The body behind row r, from the body before it.
fn body_after(kind: Kind, notes: &[u32; 512], r: u32, body: u32) -> u32
    requires { (kind_number kind ≡ 7 → body < 512) × (length notes.now ≡ 512) }
    ensures { result ≡ body_after (kind_number kind) notes.now r body }
{
    match kind {
        Kind::For => r,
        Kind::End => notes[body as usize],
        _ => body,
    }
}

fn note_at(kind: Kind, r: u32, body: u32) -> u32
    ensures { result ≡ note_at (kind_number kind) r body }
{
    match kind {
        Kind::End => body,
        _ => r,
    }
}

fn note_of(kind: Kind, r: u32, body: u32) -> u32
    ensures { result ≡ note_of (kind_number kind) r body }
{
    match kind {
        Kind::End => r,
        _ => body,
    }
}

impl<'a> Rows<'a> {
    pub fn kind(&self, r: u32) -> Kind
        requires { r < self.now.size }
        ensures { kind_number result ≡ kind_at self.now.table.now r }
    {
        Kind::try_from(table::kind_at(self.table, r)).unwrap()
    }

    // The word that word k of row r names.
    pub fn named(&self, words: &[u32; 512], r: u32, k: u32) -> u32
        requires { Names self.now.table.now r k }
        ensures { result ≡ env_of words.now (word self.now.table.now r k) }
    {
        word_of(words, table::word_at(self.table, r, k))
    }

    // The rows that compute.

    pub fn op_row(&self, words: &mut [u32; 512], r: u32)
        requires { (r < self.now.size) × (kind_at self.now.table.now r ≡ 2) }
        ensures { env_of words.new ≡ set_row r (operate (word self.now.table.now r 1) (env_of words.old (word self.now.table.now r 2)) (env_of words.old (word self.now.table.now r 3))) (env_of words.old) }
    {
        let x = self.named(words, r, 2);
        let y = self.named(words, r, 3);
        let w = word::operate(table::word_at(self.table, r, 1), x, y);
        set_row(words, r, w);
    }

    pub fn pick_row(&self, words: &mut [u32; 512], r: u32)
        requires { (r < self.now.size) × (kind_at self.now.table.now r ≡ 3) }
        ensures { env_of words.new ≡ set_row r (choose (env_of words.old (word self.now.table.now r 1)) (env_of words.old (word self.now.table.now r 2)) (env_of words.old (word self.now.table.now r 3))) (env_of words.old) }
    {
        let f = self.named(words, r, 1);
        let x = self.named(words, r, 2);
        let y = self.named(words, r, 3);
        set_row(words, r, choose(f, x, y));
    }

    // How many rows of a kind there are.
    pub fn count(&self, kind: Kind) -> usize
        ensures { result ≡ rows_of (kind_number kind) self.now.table.now self.now.size }
    {
        let mut count: usize = 0;
        for r in 0..self.size {
            count = one_more(self.kind(r), kind, count);
        }
        count
    }

    // The first words.

    // Row r's, where so many INPUTs stand before it.
    fn first_word(&self, inputs: &[u32], r: u32, before: usize) -> u32
        requires { (r < self.now.size) × (before ≡ rows_of 0 self.now.table.now r) × (length inputs.now ≡ rows_of 0 self.now.table.now self.now.size) }
        ensures { result ≡ first_words self.now.table.now inputs.now r }
    {
        match self.kind(r) {
            Kind::Input => inputs[before],
            Kind::Const => table::word_at(self.table, r, 1),
            _ => 0,
        }
    }

    pub fn first_words(&self, inputs: &[u32]) -> [u32; 512]
        requires { length inputs.now ≡ rows_of 0 self.now.table.now self.now.size }
        ensures { env_of result ≡ first_words self.now.table.now inputs.now }
    {
        let mut words = [0u32; 512];
        let mut before: usize = 0;
        for r in 0..self.size {
            words[r as usize] = self.first_word(inputs, r, before);
            before = one_more(self.kind(r), Kind::Input, before);
        }
        words
    }

    // Where each loop ends.
    fn note_ends(&self) -> [u32; 512]
        ensures { Ends self.now.table.now result }
    {
        let mut notes = [0u32; 512];
        let mut body = self.size;
        for r in 0..self.size {
            let kind = self.kind(r);
            let next = body_after(kind, &notes, r, body);
            notes[note_at(kind, r, body) as usize] = note_of(kind, r, body);
            body = next;
        }
        notes
    }

    pub fn loops(&self) -> Loops<'a>
        ensures { result.rows.table.now ≡ self.now.table.now }
    {
        Loops {
            rows: *self,
            ends: self.note_ends(),
        }
    }

    // The row behind the ARGs of the loop at row l. A `while`, since that row is what the loop looks for: the table's rightness says that it comes.
    fn first_of(&self, l: u32) -> u32
        requires { (l < self.now.size) × (kind_at self.now.table.now l ≡ 4) }
        ensures { result ≡ first_of self.now.table.now l }
    {
        let mut r = l + 1;
        while self.kind(r) == Kind::Arg {
            r += 1;
        }
        r
    }

    // All ARGs together, or all NEXTs: their words are put aside before the first of them changes.

    fn put_aside(&self, words: &[u32; 512], aside: &mut [u32; 512], from: u32, k: u32)
        requires { Source self.now.table.now from k }
        ensures { Aside self.now.table.now from k words.now aside.new }
    {
        // A copy, so that the table's place is not read anew at each row.
        let rows = *self;
        for j in 0..k {
            aside[j as usize] = rows.named(words, from + j, 1);
        }
    }

    fn copy(&self, words: &mut [u32; 512], aside: &mut [u32; 512], from: u32, to: u32, k: u32)
        requires { Copies self.now.table.now from to k }
        ensures { env_of words.new ≡ copied self.now.table.now from to k (env_of words.old) }
    {
        self.put_aside(words, aside, from, k);
        put_back(words, aside, to, k);
    }

    // A turn begins: the first takes what the ARGs name, a further one what the NEXTs name.

    pub fn first_turn(&self, words: &mut [u32; 512], aside: &mut [u32; 512], l: &Loop, index: u32)
        requires { WholeLoop self.now.table.now l.now.row l.now.first l.now.end }
        ensures { env_of words.new ≡ turn self.now.table.now l.now.row index (named self.now.table.now (env_of words.old)) (env_of words.old) }
    {
        let k = l.first - (l.row + 1);
        self.copy(words, aside, l.row + 1, l.row + 1, k);
        set_row(words, l.row, index);
    }

    pub fn next_turn(&self, words: &mut [u32; 512], aside: &mut [u32; 512], l: &Loop, index: u32)
        requires { WholeLoop self.now.table.now l.now.row l.now.first l.now.end }
        ensures { env_of words.new ≡ turn self.now.table.now l.now.row index (next_named self.now.table.now (env_of words.old)) (env_of words.old) }
    {
        let k = l.first - (l.row + 1);
        self.copy(words, aside, l.end - k, l.row + 1, k);
        set_row(words, l.row, index);
    }

    // The loop is left: after its last turn the NEXTs keep what they name, with no turn they take what the ARGs name.

    pub fn leave(&self, words: &mut [u32; 512], aside: &mut [u32; 512], l: &Loop)
        requires { WholeLoop self.now.table.now l.now.row l.now.first l.now.end }
        ensures { env_of words.new ≡ leave self.now.table.now l.now.row (named self.now.table.now (env_of words.old)) (env_of words.old) }
    {
        let k = l.first - (l.row + 1);
        self.copy(words, aside, l.end - k, l.end - k, k);
    }

    pub fn pass_over(&self, words: &mut [u32; 512], aside: &mut [u32; 512], l: &Loop)
        requires { WholeLoop self.now.table.now l.now.row l.now.first l.now.end }
        ensures { env_of words.new ≡ leave self.now.table.now l.now.row (arg_named self.now.table.now (env_of words.old)) (env_of words.old) }
    {
        let k = l.first - (l.row + 1);
        self.copy(words, aside, l.row + 1, l.end - k, k);
    }

    // The results.

    // The result of row r, where it is one, at place k; the place of the next one is answered.
    fn put_result(&self, words: &[u32; 512], results: &mut [u32], r: u32, k: usize) -> usize
        requires { (r < self.now.size) × (k ≤ 512) × (kind_at self.now.table.now r ≡ 8 → k < length results.old) }
        ensures { (result ≡ one_more (kind_at self.now.table.now r) 8 k) × (results.new ≡ cond (eqb (kind_at self.now.table.now r) 8) (set results.old k (env_of words.now (word self.now.table.now r 1))) results.old) }
    {
        match self.kind(r) {
            Kind::Out => {
                results[k] = self.named(words, r, 1);
                k + 1
            }
            _ => k,
        }
    }

    pub fn put_results(&self, words: &[u32; 512], results: &mut [u32])
        requires { rows_of 8 self.now.table.now self.now.size ≤ length results.old }
        ensures { results.new ≡ sets results.old 0 (results_from self.now.size self.now.table.now (env_of words.now) 0) }
    {
        let mut k: usize = 0;
        for r in 0..self.size {
            k = self.put_result(words, results, r, k);
        }
    }
}

impl<'a> Loops<'a> {
    // The loop at row l.
    pub fn at(&self, l: u32) -> Loop
        requires { (l < self.now.rows.size) × (kind_at self.now.rows.table.now l ≡ 4) }
        ensures { (result.row ≡ l) × WholeLoop self.now.rows.table.now l result.first result.end }
    {
        Loop {
            row: l,
            first: self.rows.first_of(l),
            end: self.ends[l as usize],
        }
    }
}
