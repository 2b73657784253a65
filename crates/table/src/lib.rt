// The check of a loop table's rows: refusals 1 to 9, with the row and the clause that tell the fitter what to mend.
// `tell_rows` and `check_rows` are the entries. A table's words are numbers that anybody may have typed, so what reads them takes every number.
#![tactic(auto)]

ghost use Rattle.std.specs.Prelude.{◌≡◌, ◌≢◌, ◌+◌, ◌-◌, ◌*◌, ◌<◌, ◌≤◌, ℕ, List, cond, eqb, [], ◌∷◌, length, MatchResult, MatchOption};
ghost use Rattle.table.specs.declared.Kind.TheVariants.{For};
ghost use Rattle.refusal.specs.Numbers.{number_of, refused_number, refused_row};
ghost use Rattle.table.specs.Rows.{kind_at, word, size, in_use, named, coded, allows, fields_of, field_in, used_words, operand_count, first_operand, sort_of, wanted_sort};
ghost use Rattle.table.specs.Kinds.{kind_number, Decodes};
ghost use Rattle.table.specs.Said.{field_of, said};
ghost use Rattle.table.specs.Scan.{after, inner, outward, home_by, holds, body_open, stack_at};
ghost use Rattle.table.specs.Bodies.{nexts_in, operand};
ghost use Rattle.table.specs.Check.{kind_before, depth_right, answer, rows_from, table_refusal};
ghost use Rattle.table.specs.Clauses.{spare_word, code_word, follows_fault, args_in, stands_fault, place_fault, sight, hidden_word, mistyped_word, hidden_body, name_detail, explained, Told};
ghost use Rattle.table.specs.Telling.{FirstWord, sort_number, placed, seen, hidden_by, broken_number, broken_detail, Answers, told_number, told_row, told_detail, told_fault, told_word, told_body, told_args, told_nexts};
ghost use Rattle.table.specs.Kept.{loops_of, Counted, Noted, Checks};

mod loops;

use loops::OpenLoops;
use refusal::{Refusal, Refused};
use std::error::Error;
use std::fmt;

// How many kinds there are.
pub const KINDS: u32 = 9;

// How many rows a table may have.
const MOST_ROWS: usize = 512;

// The first operator that compares and so gives a flag.
const COMPARISONS: u32 = 3;

// The kinds of rows, in the order of their numbers.
#[derive(Clone, Copy, Debug, PartialEq, Eq)]
pub enum Kind {
    Input,
    Const,
    Op,
    Pick,
    For,
    Arg,
    Next,
    End,
    Out,
}

impl Kind {
    // The number that stands for it in a table.
    pub fn number(self) -> u32
        ensures { result ≡ kind_number self }
    {
        self as u32
    }
}

// A number that stands for no kind.
#[derive(Clone, Copy, Debug, PartialEq, Eq)]
pub struct UnknownKind(pub u32);

impl TryFrom<u32> for Kind {
    type Error = UnknownKind;

    ghost try_from_gives = { Decodes };

    fn try_from(number: u32) -> Result<Self, UnknownKind> {
        match number {
            0 => Ok(Kind::Input),
            1 => Ok(Kind::Const),
            2 => Ok(Kind::Op),
            3 => Ok(Kind::Pick),
            4 => Ok(Kind::For),
            5 => Ok(Kind::Arg),
            6 => Ok(Kind::Next),
            7 => Ok(Kind::End),
            8 => Ok(Kind::Out),
            _ => Err(UnknownKind(number)),
        }
    }
}

impl fmt::Display for Kind {
    fn fmt<W: fmt::Write>(&self, f: &mut fmt::Formatter<W>) -> fmt::Result {
        f.write_str(match self {
            Kind::Input => "INPUT",
            Kind::Const => "CONST",
            Kind::Op => "OP",
            Kind::Pick => "PICK",
            Kind::For => "FOR",
            Kind::Arg => "ARG",
            Kind::Next => "NEXT",
            Kind::End => "END",
            Kind::Out => "OUT",
        })
    }
}

impl fmt::Display for UnknownKind {
    fn fmt<W: fmt::Write>(&self, f: &mut fmt::Formatter<W>) -> fmt::Result {
        write!(f, "no kind of row has the number {}", self.0)
    }
}

impl Error for UnknownKind {}

// What a row's value is.
#[derive(Clone, Copy, Debug, PartialEq, Eq)]
pub enum Sort {
    Word,
    Flag,
}

impl Sort {
    // 1 for a flag.
    fn number(self) -> u32
        ensures { result ≡ sort_number self }
    {
        match self {
            Sort::Word => 0,
            Sort::Flag => 1,
        }
    }
}

// What a word of a row is: unused, any value, an operand that names a word or a flag, or one of so many codes.
#[derive(Clone, Copy)]
enum Field {
    Unused,
    Any,
    Word,
    Flag,
    Codes(u32),
}

impl Field {
    fn in_use(self) -> u32
        ensures { (result ≡ in_use (field_of self)) × (result ≤ 1) }
    {
        match self {
            Field::Unused => 0,
            Field::Any | Field::Word | Field::Flag | Field::Codes(_) => 1,
        }
    }

    fn named(self) -> u32
        ensures { (result ≡ named (field_of self)) × (result ≤ 1) }
    {
        match self {
            Field::Word | Field::Flag => 1,
            Field::Unused | Field::Any | Field::Codes(_) => 0,
        }
    }

    fn coded(self) -> u32
        ensures { (result ≡ coded (field_of self)) × (result ≤ 1) }
    {
        match self {
            Field::Codes(_) => 1,
            Field::Unused | Field::Any | Field::Word | Field::Flag => 0,
        }
    }

    // Whether a word may stand there, as far as codes go.
    fn allows(self, word: u32) -> bool
        ensures { result ≡ allows (field_of self) word }
    {
        match self {
            Field::Codes(many) => word < many,
            Field::Unused | Field::Any | Field::Word | Field::Flag => true,
        }
    }
}

// What the words a to e of a kind are.
#[derive(Clone, Copy)]
struct Fields {
    a: Field,
    b: Field,
    c: Field,
    d: Field,
    e: Field,
}

impl Fields {
    fn new(a: Field, b: Field, c: Field, d: Field, e: Field) -> Fields
        ensures { (result.a ≡ a) × (result.b ≡ b) × (result.c ≡ c) × (result.d ≡ d) × (result.e ≡ e) }
    {
        Fields { a, b, c, d, e }
    }

    // Word k, 1 to 5 for a to e.
    fn at(self, k: u32) -> Field
        ensures { field_of result ≡ field_in (said self) k }
    {
        match k {
            1 => self.a,
            2 => self.b,
            3 => self.c,
            4 => self.d,
            5 => self.e,
            _ => Field::Unused,
        }
    }
}

// The table of row kinds. What follows is read from it.
fn fields_of(kind: Kind) -> Fields
    ensures { said result ≡ fields_of (kind_number kind) }
{
    use Field::{Any, Codes, Flag, Unused, Word};
    match kind {
        Kind::Input => Fields::new(Unused, Unused, Unused, Unused, Unused),
        Kind::Const => Fields::new(Any, Unused, Unused, Unused, Unused),
        Kind::Op => Fields::new(Codes(8), Word, Word, Unused, Unused),
        Kind::Pick => Fields::new(Flag, Word, Word, Unused, Unused),
        Kind::For => Fields::new(Word, Word, Word, Codes(6), Codes(5)),
        Kind::Arg => Fields::new(Word, Unused, Unused, Unused, Unused),
        Kind::Next => Fields::new(Word, Unused, Unused, Unused, Unused),
        Kind::End => Fields::new(Unused, Unused, Unused, Unused, Unused),
        Kind::Out => Fields::new(Word, Unused, Unused, Unused, Unused),
    }
}

// The same of any number; what is no kind uses no word, as an END.
fn fields_by_number(kind: u32) -> Fields
    ensures { said result ≡ fields_of kind }
{
    match Kind::try_from(kind) {
        Ok(kind) => fields_of(kind),
        Err(_) => fields_of(Kind::End),
    }
}

// How many of its words a row of this kind uses: the first so many of a to e.
pub fn used_words(kind: u32) -> u32
    ensures { (result ≡ used_words kind) × (result ≤ 5) }
{
    let u = fields_by_number(kind);
    u.a.in_use() + u.b.in_use() + u.c.in_use() + u.d.in_use() + u.e.in_use()
}

// How many values a row of this kind names.
pub fn operand_count(kind: u32) -> u32
    ensures { (result ≡ operand_count kind) × (result ≤ 3) }
{
    let u = fields_by_number(kind);
    u.a.named() + u.b.named() + u.c.named() + u.d.named() + u.e.named()
}

// The word in which the first of them stands.
fn first_operand(kind: u32) -> u32
    ensures { (result ≡ first_operand kind) × (1 ≤ result) × (result ≤ 2) }
{
    1 + fields_by_number(kind).a.coded()
}

// The sort that word k of a row of this kind has to name.
fn wanted_sort(kind: u32, k: u32) -> Sort
    ensures { sort_number result ≡ wanted_sort kind k }
{
    match fields_by_number(kind).at(k) {
        Field::Flag => Sort::Flag,
        _ => Sort::Word,
    }
}

pub fn kind_at(table: &[u32], r: u32) -> u32
    requires { (r < size table.now) × (r < 512) }
    ensures { result ≡ kind_at table.now r }
{
    table[(6 * r) as usize]
}

pub fn word_at(table: &[u32], r: u32, k: u32) -> u32
    requires { (r < size table.now) × (r < 512) × (k < 6) }
    ensures { result ≡ word table.now r k }
{
    table[(6 * r + k) as usize]
}

// The sort of row v's value: 1 for a condition's flag, else 0.
pub fn sort_at(table: &[u32], v: u32) -> u32
    requires { (v < size table.now) × (v < 512) }
    ensures { result ≡ sort_of table.now v }
{
    if kind_at(table, v) != Kind::Op.number() {
        return 0;
    }
    if word_at(table, v, 1) >= COMPARISONS {
        1
    } else {
        0
    }
}

// The same of any number; what is no row has the sort 0.
fn sort_of(table: &[u32], size: u32, v: u32) -> u32
    requires { (length table.now ≡ 6 * size) × (size ≤ 512) }
    ensures { result ≡ sort_of table.now v }
{
    if v < size { sort_at(table, v) } else { 0 }
}

// The j-th operand of row r.
pub fn operand_at(table: &[u32], r: u32, j: u32) -> u32
    requires { (r < size table.now) × (r < 512) × (j < 3) }
    ensures { result ≡ operand table.now r j }
{
    let k = first_operand(kind_at(table, r)) + j;
    table[(6 * r + k) as usize]
}

// The first word of row r, 1 to 5 for a to e, that its kind does not use and that is not 0.
pub fn spare_word(table: &[u32], r: u32) -> Option<u32>
    requires { (r < size table.now) × (r < 512) }
    ensures { FirstWord result (spare_word table.now r) }
{
    for k in used_words(kind_at(table, r)) + 1..6 {
        if word_at(table, r, k) != 0 {
            return Some(k);
        }
    }
    None
}

// The first word of row r that is none of the codes that it may be.
fn code_word(table: &[u32], r: u32) -> Option<u32>
    requires { (r < size table.now) × (r < 512) }
    ensures { FirstWord result (code_word table.now r) }
{
    let fields = fields_by_number(kind_at(table, r));
    for k in 1..6 {
        if !fields.at(k).allows(word_at(table, r, k)) {
            return Some(k);
        }
    }
    None
}

// The first operand of row r whose sort is not the one that is wanted there.
fn mistyped_word(table: &[u32], size: u32, r: u32) -> Option<u32>
    requires { (r < size) × (size ≤ 512) × (length table.now ≡ 6 * size) }
    ensures { FirstWord result (mistyped_word table.now r) }
{
    let kind = kind_at(table, r);
    let first = first_operand(kind);
    for k in first..first + operand_count(kind) {
        if sort_of(table, size, word_at(table, r, k)) != wanted_sort(kind, k).number() {
            return Some(k);
        }
    }
    None
}

// What breaks LENGTH: a row that is not whole, no row, more rows than there may be.
#[derive(Clone, Copy, Debug, PartialEq, Eq)]
pub enum LengthFault {
    SplitRow,
    NoRow,
    ManyRows,
}

// What breaks PLACE: by the row before, something behind an OUT, neither NEXT nor END behind a NEXT, an INPUT or CONST behind another kind, an ARG behind
// neither FOR nor ARG; by the open loops, a NEXT in no loop, a NEXT more than ARGs, an END of no loop, an END before all NEXTs, an OUT in a loop.
#[derive(Clone, Copy, Debug, PartialEq, Eq)]
pub enum PlaceFault {
    BehindOut,
    BehindNext,
    LateStart,
    LateArg,
    LoneNext,
    ManyNexts,
    LoneEnd,
    EarlyEnd,
    InnerOut,
}

// What hides a value: no earlier row; an END or OUT; a loop that is closed; the loop that an ARG enters; a NEXT whose END has not come. The loop is told by
// its FOR row.
#[derive(Clone, Copy, Debug, PartialEq, Eq)]
pub enum NameFault {
    Later,
    Valueless,
    Closed(u32),
    Entered(u32),
    Unended(u32),
}

// What breaks OPEN: a loop is open, or none is, so no OUT stands last.
#[derive(Clone, Copy, Debug, PartialEq, Eq)]
pub enum OpenFault {
    Unclosed,
    Outless,
}

// The innermost open loop: its FOR row, which is the row count where no loop is open, and its ARGs and NEXTs so far.
#[derive(Clone, Copy, Debug, PartialEq, Eq)]
pub struct Innermost {
    pub body: u32,
    pub args: u32,
    pub nexts: u32,
}

// The clause that is broken, by refusal. A number beside it is the word, 1 to 5 for a to e.
#[derive(Clone, Copy, Debug, PartialEq, Eq)]
pub enum Broken {
    Length(LengthFault),
    Kind,
    Spare(u32),
    Code(u32),
    Place(PlaceFault, Innermost),
    Depth(Innermost),
    Name(u32, NameFault),
    // The sort that is wanted.
    Type(u32, Sort),
    Open(OpenFault, Innermost),
}

impl Broken {
    pub fn refusal(self) -> Refusal
        ensures { number_of result ≡ broken_number self }
    {
        match self {
            Broken::Length(_) => Refusal::Length,
            Broken::Kind => Refusal::Kind,
            Broken::Spare(_) => Refusal::Spare,
            Broken::Code(_) => Refusal::Code,
            Broken::Place(_, _) => Refusal::Place,
            Broken::Depth(_) => Refusal::Depth,
            Broken::Name(_, _) => Refusal::Name,
            Broken::Type(_, _) => Refusal::Type,
            Broken::Open(_, _) => Refusal::Open,
        }
    }
}

// What a check tells of a table that it refuses: the row, and which clause is broken there.
#[derive(Clone, Copy, Debug, PartialEq, Eq)]
pub struct Clause {
    pub row: u32,
    pub broken: Broken,
}

impl fmt::Display for Clause {
    fn fmt<W: fmt::Write>(&self, f: &mut fmt::Formatter<W>) -> fmt::Result {
        write!(f, "{} at row {}", self.broken.refusal(), self.row)
    }
}

impl Error for Clause {}

impl From<Clause> for Refused {
    ghost from_gives = { Answers };

    fn from(clause: Clause) -> Refused {
        Refused {
            why: clause.broken.refusal(),
            row: clause.row,
        }
    }
}

// What is noted of a row that was passed: the bodies in which its value is at home and in which it stands.
#[derive(Clone, Copy)]
struct Place {
    home: u32,
    body: u32,
}

// What the check has noted when it comes to a row: the row count, the kind of the row before, the places of the rows before, the open loops. A body is told by
// its FOR row, the outermost one by the row count.
#[derive(Drop)]
struct Notes {
    size: u32,
    before: Kind,
    places: [Place; 512],
    loops: OpenLoops,
}

impl Notes {
    // Before the first row, which stands as if behind an INPUT.
    fn new(size: u32) -> Notes
        ensures { (t : List ℕ) → length t ≡ 6 * size → size ≤ 512 → Noted t 0 result }
    {
        Notes {
            size,
            before: Kind::Input,
            places: [Place { home: 0, body: 0 }; 512],
            loops: OpenLoops::none(),
        }
    }

    // The innermost of these bodies.
    fn inner(&self, loops: OpenLoops) -> u32
        ensures { result ≡ inner self.now.size (loops_of loops) }
    {
        match loops.innermost() {
            None => self.size,
            Some(last) => last.row,
        }
    }

    fn innermost(&self) -> Innermost
        ensures { (result.body ≡ inner self.now.size (loops_of self.now.loops)) × (result.args ≡ args_in (loops_of self.now.loops)) × (result.nexts ≡ nexts_in (loops_of self.now.loops)) }
    {
        match self.loops.innermost() {
            None => Innermost {
                body: self.size,
                args: 0,
                nexts: 0,
            },
            Some(last) => Innermost {
                body: last.row,
                args: last.args,
                nexts: last.nexts,
            },
        }
    }

    fn body_open(&self, body: u32, loops: OpenLoops) -> bool
        ensures { result ≡ body_open self.now.size body (loops_of loops) }
    {
        body == self.size || loops.holds(body)
    }

    // The body in which the value of row r, of this kind, is at home.
    fn home(&self, kind: Kind, r: u32) -> u32
        ensures { result ≡ home_by self.now.size (kind_number kind) r (loops_of self.now.loops) }
    {
        match kind {
            Kind::Input | Kind::Const => self.size,
            Kind::For => r,
            Kind::Next => self.inner(self.loops.outward()),
            _ => self.inner(self.loops),
        }
    }

    // What is wrong with a row of this kind behind the row before it.
    fn follows(&self, kind: Kind) -> Option<PlaceFault>
        ensures { placed result ≡ follows_fault (kind_number self.now.before) (kind_number kind) }
    {
        match self.before {
            Kind::Out => match kind {
                Kind::Out => None,
                _ => Some(PlaceFault::BehindOut),
            },
            Kind::Next => match kind {
                Kind::Next | Kind::End => None,
                _ => Some(PlaceFault::BehindNext),
            },
            Kind::Input | Kind::Const => match kind {
                Kind::Arg => Some(PlaceFault::LateArg),
                _ => None,
            },
            Kind::For | Kind::Arg => match kind {
                Kind::Input | Kind::Const => Some(PlaceFault::LateStart),
                _ => None,
            },
            Kind::Op | Kind::Pick | Kind::End => match kind {
                Kind::Input | Kind::Const => Some(PlaceFault::LateStart),
                Kind::Arg => Some(PlaceFault::LateArg),
                _ => None,
            },
        }
    }

    // What is wrong with it among the open loops.
    fn stands(&self, kind: Kind) -> Option<PlaceFault>
        ensures { placed result ≡ stands_fault (kind_number kind) (loops_of self.now.loops) }
    {
        match kind {
            Kind::Next => match self.loops.innermost() {
                None => Some(PlaceFault::LoneNext),
                Some(last) if last.nexts < last.args => None,
                Some(_) => Some(PlaceFault::ManyNexts),
            },
            Kind::End => match self.loops.innermost() {
                None => Some(PlaceFault::LoneEnd),
                Some(last) if last.nexts == last.args => None,
                Some(_) => Some(PlaceFault::EarlyEnd),
            },
            Kind::Out => match self.loops.innermost() {
                None => None,
                Some(_) => Some(PlaceFault::InnerOut),
            },
            _ => None,
        }
    }

    fn place(&self, kind: Kind) -> Option<PlaceFault>
        ensures { (t : List ℕ) → (r : ℕ) → kind_number kind ≡ kind_at t r → kind_number self.now.before ≡ kind_before t r → loops_of self.now.loops ≡ stack_at t r → placed result ≡ place_fault t r }
    {
        match self.follows(kind) {
            Some(fault) => Some(fault),
            None => self.stands(kind),
        }
    }

    // A FOR needs an entry that is left.
    fn depth_right(&self, kind: Kind) -> bool
        ensures { (t : List ℕ) → (r : ℕ) → kind_number kind ≡ kind_at t r → loops_of self.now.loops ≡ stack_at t r → result ≡ depth_right t r }
    {
        match kind {
            Kind::For => !self.loops.is_full(),
            _ => true,
        }
    }

    // The loops that are open where the operands of a row of this kind are read.
    fn read_loops(&self, kind: Kind) -> OpenLoops
        ensures { loops_of result ≡ cond (eqb (kind_number kind) 5) (outward (loops_of self.now.loops)) (loops_of self.now.loops) }
    {
        match kind {
            Kind::Arg => self.loops.outward(),
            _ => self.loops,
        }
    }

    // What hides value v from row r.
    fn sight(&self, table: &[u32], kind: Kind, r: u32, v: u32) -> Option<NameFault>
        requires { Noted table.now r self.now × (r < self.now.size) × (kind_number kind ≡ kind_at table.now r) }
        ensures { (seen result ≡ sight table.now r v) × (hidden_by result ≡ hidden_body table.now (sight table.now r v) v) }
    {
        if v >= r {
            return Some(NameFault::Later);
        }
        let named = kind_at(table, v);
        if named > Kind::Next.number() {
            return Some(NameFault::Valueless);
        }
        let place = self.places[v as usize];
        if self.body_open(place.home, self.read_loops(kind)) {
            if named != Kind::Next.number() {
                return None;
            }
            if self.loops.holds(place.body) {
                return Some(NameFault::Unended(place.body));
            }
            return None;
        }
        if self.body_open(place.home, self.loops) {
            return Some(NameFault::Entered(place.home));
        }
        Some(NameFault::Closed(place.home))
    }

    // That each operand of row r is visible.
    fn check_names(&self, table: &[u32], kind: Kind, r: u32) -> Result<(), Broken>
        requires { Noted table.now r self.now × (r < self.now.size) × (kind_number kind ≡ kind_at table.now r) }
        ensures { MatchResult result (λ x. hidden_word table.now r ≡ 0) (λ b. (broken_number b ≡ 7) × (hidden_word table.now r ≢ 0) × (broken_detail b ≡ name_detail table.now r)) }
    {
        let first = first_operand(kind.number());
        for k in first..first + operand_count(kind.number()) {
            if let Some(fault) = self.sight(table, kind, r, word_at(table, r, k)) {
                return Err(Broken::Name(k, fault));
            }
        }
        Ok(())
    }

    // The rules 2 to 8 in their order on row r, whose kind is answered.
    fn check_row(&self, table: &[u32], r: u32) -> Result<Kind, Broken>
        requires { Noted table.now r self.now × (r < self.now.size) }
        ensures { Checks table.now r result }
    {
        let Ok(kind) = Kind::try_from(kind_at(table, r)) else {
            return Err(Broken::Kind);
        };
        if let Some(word) = spare_word(table, r) {
            return Err(Broken::Spare(word));
        }
        if let Some(word) = code_word(table, r) {
            return Err(Broken::Code(word));
        }
        if let Some(fault) = self.place(kind) {
            return Err(Broken::Place(fault, self.innermost()));
        }
        if !self.depth_right(kind) {
            return Err(Broken::Depth(self.innermost()));
        }
        self.check_names(table, kind, r)?;
        if let Some(word) = mistyped_word(table, self.size, r) {
            return Err(Broken::Type(word, wanted_sort(kind.number(), word)));
        }
        Ok(kind)
    }

    // Row r, of this kind, was passed.
    fn note(&mut self, kind: Kind, r: u32)
        requires { (r < 512) × (kind ≡ For → self.old.loops.depth < 8) × Counted 512 (loops_of self.old.loops) }
        ensures { (t : List ℕ) → Noted t r self.old → r < self.old.size → kind_number kind ≡ kind_at t r → Noted t (r + 1) self.new × (self.new.size ≡ self.old.size) }
    {
        let home = self.home(kind, r);
        let body = self.inner(self.loops);
        self.places[r as usize] = Place { home, body };
        self.loops = self.loops.behind(kind, r);
        self.before = kind;
    }

    // That no loop is open behind the last row, and that it is an OUT.
    fn check_end(&self) -> Result<(), Clause>
        ensures { (t : List ℕ) → Noted t self.now.size self.now → (answer (told_number result) (told_row result) ≡ rows_from 0 t self.now.size) × (told_detail result ≡ explained t (told_number result) (told_row result)) }
    {
        if self.loops.depth > 0 {
            return Err(Clause {
                row: self.size,
                broken: Broken::Open(OpenFault::Unclosed, self.innermost()),
            });
        }
        match self.before {
            Kind::Out => Ok(()),
            _ => Err(Clause {
                row: self.size,
                broken: Broken::Open(OpenFault::Outless, self.innermost()),
            }),
        }
    }
}

fn tell_each(table: &[u32], size: u32) -> Result<(), Clause>
    requires { (length table.now ≡ 6 * size) × (size ≤ 512) }
    ensures { (answer (told_number result) (told_row result) ≡ rows_from size table.now 0) × (told_detail result ≡ explained table.now (told_number result) (told_row result)) }
{
    let mut notes = Notes::new(size);
    for row in 0..size {
        match notes.check_row(table, row) {
            Err(broken) => return Err(Clause { row, broken }),
            Ok(kind) => notes.note(kind, row),
        }
    }
    notes.check_end()
}

// The check of a table's rows, refusals 1 to 9, with the clause that is broken.
pub fn tell_rows(table: &[u32]) -> Result<(), Clause>
    ensures { Told table.now (told_number result) (told_row result) (told_fault result) (told_word result) (told_body result) (told_args result) (told_nexts result) }
{
    let size = table.len() / 6;
    let fault = if table.len() % 6 != 0 {
        LengthFault::SplitRow
    } else if size < 1 {
        LengthFault::NoRow
    } else if size > MOST_ROWS {
        LengthFault::ManyRows
    } else {
        return tell_each(table, size as u32);
    };
    Err(Clause {
        row: 0,
        broken: Broken::Length(fault),
    })
}

// The check of a table's rows: refusals 1 to 9, with the row.
pub fn check_rows(table: &[u32]) -> Result<(), Refused>
    ensures { answer (refused_number result) (refused_row result) ≡ table_refusal table.now }
{
    tell_rows(table)?;
    Ok(())
}
