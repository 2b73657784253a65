// One firing that changes the node's record in place: the record is lent, and what the firing does comes out. It calls the step by value, so
// it does what `step::step` does and nothing else.
#![tactic(auto)]

ghost use Rattle.std.specs.Prelude.{◌≡◌};
ghost use Rattle.step.specs.Machines.{step_of};
ghost use Rattle.step.specs.Shown.{view_of, shown};
ghost use Rattle.lent.specs.Left.{left_by};

// One firing, or none where the node is not ready. The record behind the reference becomes the one that is left: a node that is not ready keeps
// its own.
pub fn advance(own: &mut step::Record, kind: u32, code: u32, seen: step::Seen) -> Option<step::Act>
    ensures firing { (shown result ≡ step_of kind code (view_of seen own.old)) × (own.new ≡ left_by (step_of kind code (view_of seen own.old)) own.old) }
{
    let act = step::step(kind, code, seen, *own)?;
    *own = act.next;
    Some(act)
}
