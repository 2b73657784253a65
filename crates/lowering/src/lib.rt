// The entries for tables: their check, and lowering into lent words.
#![tactic(auto)]

ghost use Rattle.std.specs.Prelude.{◌≡◌, ◌≤◌, length};
ghost use Rattle.std.proofs.lemmas.List.Edits.{sets};
ghost use Rattle.refusal.specs.Numbers.{refused_number, refused_row};
ghost use Rattle.table.specs.Check.{answer};
ghost use Rattle.lowered.specs.Lower.{lowered_words};
ghost use Rattle.lowered.specs.Room.{check_answer};
ghost use Rattle.measuring.specs.Ready.{Counted, Ready};
ghost use Rattle.lowering.specs.Answers.{LowerAnswer, written};

use carrying::Passed;
use forking::Uses;
use measuring::Sizes;
use refusal::Refused;

// The graph's words in their order. The uses are numbered by node first and by result last, so the results' legs need the nodes' tally.
fn write_graph(
    passed: &Passed,
    rows: &[u32; 28672],
    outs: &[u32; 512],
    uses: &Uses,
    sizes: &Sizes,
    graph: &mut [u32],
)
    requires { Ready passed.now.words.now rows.now outs.now uses.now.count uses.now.free × Counted passed.now.words.now sizes.now.plain sizes.now.sources sizes.now.nodes sizes.now.wires sizes.now.starts sizes.now.results × (length (lowered_words passed.now.words.now) ≤ length graph.old) }
    ensures { graph.new ≡ sets graph.old 0 (lowered_words passed.now.words.now) }
{
    let starts = sizes.starts as usize;
    let results = sizes.results as usize;
    let plain = sizes.plain as usize;
    let place = 4 + 2 * starts;
    forking::four(
        graph,
        0,
        sizes.nodes,
        sizes.wires,
        sizes.starts,
        sizes.results,
    );
    forking::write_starts(passed, sizes.starts, graph, 4);
    let mut seen = [0; 8192];
    forking::tally_rows(rows, plain, &mut seen);
    forking::write_results(outs, results, uses, &mut seen, graph, place);
    let mut again = [0; 8192];
    forking::write_rows(rows, plain, uses, &mut again, graph, place + results);
    let mut sorts = [0; 8192];
    forking::note_sorts(rows, plain, &mut sorts);
    forking::write_forks(
        &sorts,
        uses,
        sizes.sources,
        graph,
        place + results + 7 * plain,
    );
}

// The check of a table: refusals 1 to 9, then 10 by the counts alone.
pub fn check_table(table: &[u32]) -> Result<(), Refused>
    ensures answer { answer (refused_number result) (refused_row result) ≡ check_answer table.now }
{
    let passed = Passed::check(table)?;
    let mut rows = [0; 28672];
    let mut outs = [0; 512];
    let mut uses = Uses::none();
    measuring::measure(&passed, &mut rows, &mut outs, &mut uses)?;
    Ok(())
}

// Lowers a table into the lent words, and answers how many were written. The room is known before the first word is written.
pub fn lower(table: &[u32], graph: &mut [u32]) -> Result<usize, Refused>
    ensures answer { LowerAnswer table.now graph.old (refused_number result) (refused_row result) (written result) graph.new }
{
    let passed = Passed::check(table)?;
    let mut rows = [0; 28672];
    let mut outs = [0; 512];
    let mut uses = Uses::none();
    let sizes = measuring::measure(&passed, &mut rows, &mut outs, &mut uses)?;
    let needed = 4
        + 2 * (sizes.starts as usize)
        + sizes.results as usize
        + 7 * (sizes.nodes as usize);
    if graph.len() < needed {
        return Err(passed.crowded());
    }
    write_graph(&passed, &rows, &outs, &uses, &sizes, graph);
    Ok(needed)
}
