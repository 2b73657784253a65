// The commands of rehearse on argument texts and two channels: what they answer goes to one, refusals and complaints to the other.
// The last line of the answers is `refused` where a rule refused, `error` where a command, an argument or a file was wrong, and neither where all went well.
#![tactic(auto)]

use arguments::{Asked, Inputs, Problem, Wrong, argument};
use channels::{Channels, Console};
use drawn::{Graph, Names, State, View};
use files::{Stop, Words};
use readings::{Held, Reading, Verdict};
use refusal::{Refusal, Refused};
use run::Ran;
use std::io;
use std::io::Write;
use std::rt::Files;
use table::{Broken, Clause};
use text::Page;
use told::RowKind;
use traced::How;

const USAGE: &[u8] =
    b"rehearse check TABLE                      whether a loop table is right; if not, what to mend: the rule, the row, the clause
rehearse run TABLE INPUT.. [OPTION..]     runs a table on its input words
rehearse read TABLE INPUT.. [OPTION..]    reads a table on its input words, row by row, without its graph
rehearse lower TABLE                      the words of a table's graph, with what they say as comments
rehearse draw TABLE [INPUT.. OPTION..]    a table's graph as Graphviz text; with inputs, the tokens after a run
rehearse sheet TABLE                      a table as a sheet that people can read
rehearse table SHEET                      a sheet's words, with the kind of each row as a comment
rehearse calls                            answers calls, one a line, from standard input
rehearse --help                           this
Options of run, and of draw but for --trace: --order FILE, node numbers to go through once before the sweeps; --reverse, all nodes from the last to 0 so;
--allowance N, the most firings, 1,000,000,000 where it is not given; --trace, a line for each firing. Of run alone: --both, the table is read too, and the two are compared.
Of read, and of run with --both: --turns N, the most turns of loops, 1,000,000,000 where it is not given.
Of run, read and draw: --signed, words are told with their sign, 4,294,967,295 as -1.
A table is a file of decimal words, six to a row; # starts a comment. A sheet, which starts with rows=, does for a table everywhere.
An input, and in a table word a of a CONST, may be below 0, down to -2,147,483,648.
";

// The commands on a table.
#[derive(Clone, Copy, Debug, PartialEq, Eq)]
enum Command {
    Check,
    Lower,
    Sheet,
    Table,
    Run,
    Draw,
    Read,
}

impl Command {
    fn named(name: &[u8]) -> Option<Command> {
        match name {
            b"check" => Some(Command::Check),
            b"lower" => Some(Command::Lower),
            b"sheet" => Some(Command::Sheet),
            b"table" => Some(Command::Table),
            b"run" => Some(Command::Run),
            b"draw" => Some(Command::Draw),
            b"read" => Some(Command::Read),
            _ => None,
        }
    }

    // Whether it takes a table and nothing else.
    fn is_alone(self) -> bool {
        !matches!(self, Command::Run | Command::Draw | Command::Read)
    }

    // What it does not take of what was asked.
    fn problem(self, asked: &Asked<'_>) -> Option<Problem> {
        match self {
            Command::Run if asked.turned && !asked.both => Some(Problem::Unturned),
            Command::Run => None,
            Command::Draw if asked.trace => Some(Problem::Trace),
            Command::Draw if asked.both || asked.turned => Some(Problem::Unread),
            Command::Draw => None,
            Command::Read if asked.steered => Some(Problem::Unrun),
            Command::Read => None,
            _ if asked.run || asked.signed => Some(Problem::Alone),
            _ => None,
        }
    }
}

// The memory of a command on a table: the letters of the file come first; once they are not looked at any more, those of an order list, and then what is told.
#[derive(Drop)]
struct Desk<'m> {
    memory: &'m mut [u8],
    letters: usize,
}

impl<'m> Desk<'m> {
    fn text(&self) -> &[u8] {
        self.memory.get(..self.letters).unwrap_or(&[])
    }

    fn page(&mut self) -> Page<'_> {
        Page::new(self.memory)
    }
}

// What a command is asked, if it takes that. To one that takes a table alone a second argument is no wrong input, but one too many.
fn read_asked<'a>(
    command: Command,
    line: &'a [u8],
    inputs: &mut Inputs,
) -> Result<Asked<'a>, Wrong<'a>> {
    let name = argument(line, 0);
    match arguments::read(line, inputs) {
        Ok(asked) => match command.problem(&asked) {
            None => Ok(asked),
            Some(problem) => Err(Wrong {
                problem,
                argument: name,
            }),
        },
        Err(wrong) if wrong.problem == Problem::Word && command.is_alone() => Err(Wrong {
            problem: Problem::Alone,
            argument: name,
        }),
        Err(wrong) => Err(wrong),
    }
}

// What is to be done, and where it is told.
#[derive(Drop)]
struct Job<'a, R> {
    console: &'a Console<'a, R>,
    command: Command,
    asked: Asked<'a>,
    inputs: &'a [u32],
}

// The first word of a row that its kind does not use and that is not 0.
fn spare_word(table: &[u32], row: u32) -> u32 {
    if row < 512 && (row as usize) < table.len() / 6 {
        return table::spare_word(table, row).unwrap_or(0);
    }
    0
}

// The clause by which 1, 2 or 3 refuse a table; 4 to 9 do not look at it.
fn sheet_clause(table: &[u32], refused: Refused) -> Clause {
    let row = refused.row;
    match refused.why {
        Refusal::Spare => Clause {
            row,
            broken: Broken::Spare(spare_word(table, row)),
        },
        Refusal::Length => match table::tell_rows(table) {
            Err(clause) => clause,
            Ok(()) => Clause {
                row,
                broken: Broken::Kind,
            },
        },
        _ => Clause {
            row,
            broken: Broken::Kind,
        },
    }
}

// The rows of a table: words, and number and kind as a comment.
fn write_table<W: Write>(to: &mut W, table: &[u32]) -> io::Result<()> {
    for (r, row) in table.chunks_exact(6).take(512).enumerate() {
        if let Some((first, others)) = row.split_first() {
            let kind = RowKind(*first);
            let others = text::Words(others);
            writeln!(to, "{first}{others} # row {r}, {kind}")?;
        }
    }
    Ok(())
}

fn write_accepted<W: Write>(to: &mut W, path: &[u8]) -> io::Result<()> {
    to.write_all(path)?;
    to.write_all(b": accepted by rules 1 to 10\n")
}

// A refusal of a table by rules 1 to 10.
fn write_refused<W: Write>(to: &mut W, path: &[u8], table: &[u32], why: Refusal) -> io::Result<()> {
    if why == Refusal::Room {
        let counts = counting::count_table(table);
        let four = [counts.nodes, counts.wires, counts.starts, counts.results];
        return refused::write_room(to, path, four);
    }
    match table::tell_rows(table) {
        Err(clause) => refused::write_refusal(to, path, table, clause),
        Ok(()) => Ok(()),
    }
}

impl<'a, R: Channels + Files> Job<'a, R> {
    // What stands on a page goes to the answers, or to the complaints.

    fn answer(&self, page: &mut Page<'_>) -> Result<(), Stop> {
        files::answer(self.console, page.as_slice())?;
        page.clear();
        Ok(())
    }

    fn complain(&self, page: &mut Page<'_>, stop: Stop) -> Result<(), Stop> {
        self.console.complain(page.as_slice());
        Err(stop)
    }

    fn refuse(&self, desk: &mut Desk<'_>, table: &[u32], why: Refusal) -> Result<(), Stop> {
        files::note_odd(self.console, self.asked.table, desk.text(), u64::MAX);
        let mut page = desk.page();
        let _ = write_refused(&mut page, self.asked.table, table, why);
        self.complain(&mut page, Stop::Refused)
    }

    fn check(&self, desk: &mut Desk<'_>, table: &[u32]) -> Result<(), Stop> {
        match lowering::check_table(table) {
            Ok(()) => {
                let mut page = desk.page();
                let _ = write_accepted(&mut page, self.asked.table);
                self.answer(&mut page)
            }
            Err(refused) => self.refuse(desk, table, refused.why),
        }
    }

    // Writes a table that has a sheet: the sheet, or its words.
    fn write(&self, desk: &mut Desk<'_>, table: &[u32]) -> Result<(), Stop> {
        let mut sheet = [0u8; 65536];
        match sheet_written::write_sheet(table, &mut sheet) {
            Ok(_) if self.command == Command::Table => {
                let mut page = desk.page();
                let _ = write_table(&mut page, table);
                self.answer(&mut page)
            }
            Ok(written) => files::answer(self.console, &sheet[..written.min(65536)]),
            Err(refused) => {
                files::note_odd(self.console, self.asked.table, desk.text(), u64::MAX);
                let clause = sheet_clause(table, refused);
                let mut page = desk.page();
                let _ = refused::write_refusal(&mut page, self.asked.table, table, clause);
                self.complain(&mut page, Stop::Refused)
            }
        }
    }

    // Graphs.

    fn view<'v>(&self, graph: &'v [u32], state: &'v [u32], names: Names<'v>) -> View<'v> {
        View {
            graph: Graph(graph),
            state: State(state),
            names,
            signed: self.asked.signed,
        }
    }

    fn draw(&self, view: View<'_>, page: &mut Page<'_>) -> Result<(), Stop> {
        files::written(
            self.console,
            listed::write_drawing(self.console, view, page),
        )
    }

    // The order list: a file's, the nodes from the last to 0, or none.
    fn read_order(&self, graph: &[u32], memory: &mut [u8], order: &mut Words) -> Result<(), Stop> {
        if let Some(path) = self.asked.order {
            files::read_file(self.console, path, false, memory, order)?;
        } else if self.asked.reverse {
            let _ = order.extend((0..Graph(graph).nodes()).rev());
        }
        Ok(())
    }

    // The reading of the table beside its run.
    fn hold(
        &self,
        table: &[u32],
        view: View<'_>,
        ran: Ran,
        page: &mut Page<'_>,
    ) -> Result<(), Stop> {
        let mut results = [0u32; 512];
        let plain = engine::read_plain(table, self.inputs, &mut results, self.asked.turns);
        let held = Held {
            answer: rehearsal::answer_of(ran),
            view,
            plain,
            results: &results,
        };
        let _ = held.write(page);
        if held.verdict() == Verdict::Opposed {
            return self.complain(page, Stop::Error);
        }
        self.answer(page)
    }

    // What a run answers; above a drawing it stands as a comment, and a reading is told below it.
    fn tell(
        &self,
        table: &[u32],
        view: View<'_>,
        ran: Ran,
        page: &mut Page<'_>,
    ) -> Result<(), Stop> {
        if self.command == Command::Draw {
            let _ = rehearsal::write_drawn(page, view, ran);
            self.answer(page)?;
            return self.draw(view, page);
        }
        let _ = rehearsal::write_ran(page, view, ran);
        self.answer(page)?;
        if self.asked.both {
            return self.hold(table, view, ran, page);
        }
        Ok(())
    }

    fn run(
        &self,
        table: &[u32],
        graph: &[u32],
        names: Names<'_>,
        desk: &mut Desk<'_>,
    ) -> Result<(), Stop> {
        let mut order = Words::new();
        self.read_order(graph, desk.memory, &mut order)?;
        let mut page = desk.page();
        let mut memory = [0u32; 32768];
        let state = &mut memory[..rehearsal::state_words(Graph(graph))];
        let how = How {
            console: self.console,
            names,
            trace: self.asked.trace,
            signed: self.asked.signed,
        };
        match rehearsal::run_graph(
            &how,
            graph,
            self.inputs,
            state,
            order.as_slice(),
            self.asked.allowance,
        ) {
            Ok(ran) => self.tell(table, self.view(graph, state, names), ran, &mut page),
            Err(why) => {
                let given = self.inputs.len();
                let _ = rehearsal::write_refused(&mut page, why, Graph(graph), given);
                self.complain(&mut page, Stop::Refused)
            }
        }
    }

    fn on_named(
        &self,
        table: &[u32],
        graph: &[u32],
        names: Names<'_>,
        desk: &mut Desk<'_>,
    ) -> Result<(), Stop> {
        let view = self.view(graph, &[], names);
        match self.command {
            Command::Lower => files::written(
                self.console,
                listed::write_list(self.console, view, &mut desk.page()),
            ),
            Command::Draw if !self.asked.run => self.draw(view, &mut desk.page()),
            _ => self.run(table, graph, names, desk),
        }
    }

    // The names of nodes and wires: three words for each of 4,096 and of 8,192. A table that was lowered has them.
    fn on_graph(&self, table: &[u32], graph: &[u32], desk: &mut Desk<'_>) -> Result<(), Stop> {
        let mut nodes = [0u32; 12288];
        let mut wires = [0u32; 24576];
        let names = match naming::name_graph(table, &mut nodes, &mut wires) {
            Ok(_) => Names {
                nodes: &nodes,
                wires: &wires,
            },
            Err(_) => Names {
                nodes: &[],
                wires: &[],
            },
        };
        self.on_named(table, graph, names, desk)
    }

    // A graph has at most 4 + 2 * 512 + 512 + 7 * 4096 words.
    fn lower(&self, desk: &mut Desk<'_>, table: &[u32]) -> Result<(), Stop> {
        let mut memory = [0u32; 30212];
        match lowering::lower(table, &mut memory) {
            Ok(written) => match memory.get(..written) {
                Some(graph) => self.on_graph(table, graph, desk),
                None => {
                    files::complain(self.console, self.asked.table, "the graph is too long");
                    Err(Stop::Error)
                }
            },
            Err(refused) => self.refuse(desk, table, refused.why),
        }
    }

    // Readings.

    fn read(&self, desk: &mut Desk<'_>, table: &[u32]) -> Result<(), Stop> {
        let mut results = [0u32; 512];
        let plain = engine::read_plain(table, self.inputs, &mut results, self.asked.turns);
        let reading = Reading {
            table,
            given: self.inputs.len(),
            plain,
            results: &results,
            signed: self.asked.signed,
        };
        if let Some(why) = reading.rows_refusal() {
            return self.refuse(desk, table, why);
        }
        let mut page = desk.page();
        let _ = reading.write(&mut page);
        if plain.is_err() {
            return self.complain(&mut page, Stop::Refused);
        }
        self.answer(&mut page)
    }

    // Tables.

    fn on_table(&self, desk: &mut Desk<'_>, table: &[u32]) -> Result<(), Stop> {
        match self.command {
            Command::Check => self.check(desk, table),
            Command::Sheet | Command::Table => self.write(desk, table),
            Command::Read => self.read(desk, table),
            Command::Lower | Command::Run | Command::Draw => self.lower(desk, table),
        }
    }

    // The memory that all commands on a table share, and the file's words.
    fn on_file(&self) -> Result<(), Stop> {
        let mut memory = [0u8; 1048576];
        let mut table = Words::new();
        let text = files::read_file(
            self.console,
            self.asked.table,
            true,
            &mut memory,
            &mut table,
        )?;
        let letters = text.len();
        let mut desk = Desk {
            memory: &mut memory,
            letters,
        };
        self.on_table(&mut desk, table.as_slice())
    }
}

fn ask<R: Channels + Files>(
    console: &Console<'_, R>,
    command: Command,
    line: &[u8],
) -> Result<(), Stop> {
    let mut inputs = Inputs::new();
    match read_asked(command, line, &mut inputs) {
        Ok(asked) => {
            let job = Job {
                console,
                command,
                asked,
                inputs: inputs.as_slice(),
            };
            job.on_file()
        }
        Err(wrong) => {
            files::complain(console, wrong.argument, wrong.problem);
            Err(Stop::Error)
        }
    }
}

fn perform<R: Channels + Files>(console: &Console<'_, R>, line: &[u8]) -> Result<(), Stop> {
    let name = argument(line, 0);
    match Command::named(name) {
        Some(command) => ask(console, command, line),
        None => {
            files::complain(console, name, "there is no such command");
            console.complain(USAGE);
            Err(Stop::Error)
        }
    }
}

// The last line, by which a script tells a refusal and an error from an answer.
fn close<R: Channels>(console: &Console<'_, R>, stop: Stop) {
    let mut memory = [0u8; 16];
    let mut page = Page::new(&mut memory);
    let _ = writeln!(page, "{stop}");
    let _ = console.answer(page.as_slice());
}

// Arguments for which there is no room.
pub fn refuse_long<R: Channels>(console: &Console<'_, R>) {
    files::complain(console, b"rehearse", "the arguments are too long");
    close(console, Stop::Error);
}

// Does what the arguments in a text ask.
pub fn obey<R: Channels + Files>(console: &Console<'_, R>, line: &[u8]) {
    if arguments::asks_help(line) {
        let _ = files::written(console, console.answer(USAGE));
        return;
    }
    if argument(line, 0) == b"calls".as_slice() {
        calls::serve(console);
        return;
    }
    if let Err(stop) = perform(console, line) {
        close(console, stop);
    }
}
