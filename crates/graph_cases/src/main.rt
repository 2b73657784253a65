// The entries on graphs and states, called as standard input lists them: the sum graph, and damaged words of every refusal from 11 to 18.
#![tactic(auto)]

use channels::Console;

fn main(rt: HostRuntime) {
    calls::serve(&Console::new(&rt));
}
