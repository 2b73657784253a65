// How large a table's graph is: its nodes laid down and its uses counted, before a word is written.
#![tactic(auto)]

ghost use Rattle.std.specs.Prelude.{◌≡◌, ◌&&◌, cond, leb, length, IfOk};
ghost use Rattle.refusal.specs.Numbers.{refused_number, refused_row};
ghost use Rattle.table.specs.Rows.{size};
ghost use Rattle.table.specs.Check.{answer};
ghost use Rattle.lowered.specs.Room as room;
ghost use Rattle.measuring.specs.Ready.{Ready, Counted};

use carrying::Passed;
use forking::Uses;
use refusal::Refused;

const MOST_NODES: u32 = 4096;

const MOST_WIRES: u32 = 8192;

// The counts of a table's graph in its limits: `plain` nodes and `sources`, their wires, before forks; `nodes` and `wires` with them.
#[derive(Clone, Copy)]
pub struct Sizes {
    pub plain: u32,
    pub sources: u32,
    pub nodes: u32,
    pub wires: u32,
    pub starts: u32,
    pub results: u32,
}

fn in_limits(nodes: u32, wires: u32) -> bool
    ensures { result ≡ leb nodes 4096 && leb wires 8192 }
{
    nodes <= MOST_NODES && wires <= MOST_WIRES
}

// Lays a table's nodes down and counts everything, the uses of the wires before forks too; refusal 10 where a count is over its limit. A table over a limit before forks is over it with them.
pub fn measure(
    passed: &Passed,
    rows: &mut [u32; 28672],
    outs: &mut [u32; 512],
    uses: &mut Uses,
) -> Result<Sizes, Refused>
    ensures answer { answer (refused_number result) (refused_row result) ≡ cond (room.in_limits passed.now.words.now) (answer 0 0) (answer 10 (size passed.now.words.now)) }
    ensures ready { IfOk result (λ s. Ready passed.now.words.now rows.new outs.new uses.new.count uses.new.free × Counted passed.now.words.now s.plain s.sources s.nodes s.wires s.starts s.results) }
{
    let laid = laying::lay(passed, rows, outs);
    if !in_limits(laid.nodes, laid.wires) {
        return Err(passed.crowded());
    }
    let added = forking::count_uses(
        rows,
        laid.nodes as usize,
        outs,
        laid.results as usize,
        laid.wires,
        uses,
    );
    let nodes = laid.nodes + added.nodes;
    let wires = laid.wires + added.wires;
    if !in_limits(nodes, wires) {
        return Err(passed.crowded());
    }
    Ok(Sizes {
        plain: laid.nodes,
        sources: laid.wires,
        nodes,
        wires,
        starts: laid.starts,
        results: laid.results,
    })
}
