// The entries on tables, called as standard input lists them: the register's tables, every refusal from 1 to 10, the limits, and runs of lowered tables.
#![tactic(auto)]

use channels::Console;

fn main(rt: HostRuntime) {
    calls::serve(&Console::new(&rt));
}
