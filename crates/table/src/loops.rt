// The open loops before a row, as the check keeps them: eight entries of three numbers, of which so many are in use.
ghost use Rattle.std.specs.Prelude.{◌≤◌};

use crate::Kind;

// How many loops may be open at once.
const MOST_LOOPS: usize = 8;

// An open loop: its FOR row, and its ARGs and NEXTs so far.
#[derive(Clone, Copy)]
pub struct OpenLoop {
    pub row: u32,
    pub args: u32,
    pub nexts: u32,
}

// The open loops, the innermost last.
#[derive(Clone, Copy)]
pub struct OpenLoops {
    pub entries: [[u32; 3]; MOST_LOOPS],
    pub depth: usize,
    ghost deep: { depth ≤ 8 },
}

impl OpenLoops {
    ghost use Rattle.std.specs.Prelude.{◌≡◌, ◌-◌, ◌<◌, [], ◌∷◌, leb, MatchOption};
    ghost use Rattle.table.specs.declared.Kind.TheVariants.{For};
    ghost use Rattle.table.specs.Kinds.{kind_number};
    ghost use Rattle.table.specs.Scan.{after, outward, holds};
    ghost use Rattle.table.specs.Kept.{as_loop, loops_of, Counted};

    pub fn none() -> OpenLoops
        ensures { result.depth ≡ 0 }
    {
        OpenLoops {
            entries: [[0; 3]; MOST_LOOPS],
            depth: 0,
        }
    }

    pub fn is_full(self) -> bool
        ensures { result ≡ leb 8 self.depth }
    {
        self.depth >= MOST_LOOPS
    }

    pub fn innermost(self) -> Option<OpenLoop>
        ensures { MatchOption result (loops_of self ≡ []) (λ last. (loops_of self ≡ as_loop last ∷ outward (loops_of self)) × (1 ≤ self.depth)) }
    {
        if self.depth == 0 {
            return None;
        }
        let last = self.entries[self.depth - 1];
        Some(OpenLoop {
            row: last[0],
            args: last[1],
            nexts: last[2],
        })
    }

    // Those around the innermost one.
    pub fn outward(self) -> OpenLoops
        ensures { (loops_of result ≡ outward (loops_of self)) × (result.depth ≡ self.depth - 1) }
    {
        let entries = self.entries;
        OpenLoops {
            entries,
            depth: self.depth.saturating_sub(1),
        }
    }

    // One loop more.
    pub fn inward(self, last: OpenLoop) -> OpenLoops
        requires { self.depth < 8 }
        ensures { loops_of result ≡ as_loop last ∷ loops_of self }
    {
        let mut entries = self.entries;
        entries[self.depth] = [last.row, last.args, last.nexts];
        OpenLoops {
            entries,
            depth: self.depth + 1,
        }
    }

    pub fn holds(self, row: u32) -> bool
        ensures { result ≡ holds row (loops_of self) }
    {
        for k in 0..self.depth {
            if self.entries[k][0] == row {
                return true;
            }
        }
        false
    }

    // Behind row r, from those before it.
    pub fn behind(self, kind: Kind, r: u32) -> OpenLoops
        requires { (kind ≡ For → self.depth < 8) × Counted 512 (loops_of self) }
        ensures { loops_of result ≡ after (kind_number kind) r (loops_of self) }
    {
        match kind {
            Kind::For => self.inward(OpenLoop {
                row: r,
                args: 0,
                nexts: 0,
            }),
            Kind::End => self.outward(),
            Kind::Arg => match self.innermost() {
                None => self,
                Some(l) => self.outward().inward(OpenLoop {
                    row: l.row,
                    args: l.args + 1,
                    nexts: l.nexts,
                }),
            },
            Kind::Next => match self.innermost() {
                None => self,
                Some(l) => self.outward().inward(OpenLoop {
                    row: l.row,
                    args: l.args,
                    nexts: l.nexts + 1,
                }),
            },
            _ => self,
        }
    }
}
