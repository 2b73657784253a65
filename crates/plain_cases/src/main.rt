// The reading of a table without its graph, called as standard input lists it: the register's tables, allowances around the turns of a reading, zero steps, every refusal, the limits.
#![tactic(auto)]

use channels::Console;

fn main(rt: HostRuntime) {
    calls::serve(&Console::new(&rt));
}
