// One test vector: the command word, the numbers after it, and the answer.
use crate::buffer::Buffer;
use crate::conversions::Kind;
use crate::fields::Numbers;
use crate::files::File;
use crate::lists::Lists;
use crate::put::Out;
use crate::{answers, boards, coarse, conversions, differences, fields, files, parts, salvages};
use std::fmt;
use std::fmt::Write;

// The most bytes of the first file of a comparison: a file of 3,686 records of 20 bytes has 73,728.
const FIRST_ROOM: usize = 73728;

// What is held from line to line: the lists, the file, and the first file of a comparison.
#[derive(Drop)]
pub(crate) struct State {
    lists: Lists,
    file: File,
    first: Buffer<u8, FIRST_ROOM>,
}

// What a line asks for.
#[derive(Clone, Copy)]
enum Command {
    Point,
    Points,
    Entry,
    Search,
    Class,
    Edges,
    Root,
    Answer,
    Coarse,
    Ready,
    List,
    Column,
    File,
    Write,
    Form,
    Record,
    Read,
    Board,
    First,
    Compare,
    Salvage,
    Convert(Kind),
}

impl Command {
    // The command of a name; any other name than these is that of a kind to convert.
    fn named(name: &[u8]) -> Command {
        match name {
            b"point" => Command::Point,
            b"points" => Command::Points,
            b"entry" => Command::Entry,
            b"search" => Command::Search,
            b"class" => Command::Class,
            b"edges" => Command::Edges,
            b"root" => Command::Root,
            b"answer" => Command::Answer,
            b"coarse" => Command::Coarse,
            b"ready" => Command::Ready,
            b"list" => Command::List,
            b"column" => Command::Column,
            b"file" => Command::File,
            b"write" => Command::Write,
            b"form" => Command::Form,
            b"record" => Command::Record,
            b"read" => Command::Read,
            b"board" => Command::Board,
            b"first" => Command::First,
            b"compare" => Command::Compare,
            b"salvage" => Command::Salvage,
            _ => Command::Convert(Kind::named(name)),
        }
    }
}

// What a source of a kind comes to.
fn convert(kind: Kind, text: &[u8], lists: &Lists, out: &mut Out) -> fmt::Result {
    let numbers = Numbers::read(text, kind.floats());
    if let Some(reading) = kind.reading(&numbers) {
        return conversions::convert(reading, out);
    }
    match kind {
        Kind::Samples => conversions::convert(lists.samples(), out),
        _ => conversions::convert(conversions::whole(&numbers), out),
    }
}

// The rest of a line after the word `answer` or `coarse`, with the space before it: the kind, and the numbers after it.
fn kind_and_numbers(text: &[u8]) -> (Kind, Numbers) {
    let (word, rest) = fields::next_word(text);
    let kind = Kind::named(fields::name(word));
    (kind, Numbers::read(rest, kind.floats()))
}

// A count, alone on its line.
fn put_count(count: usize, out: &mut Out) -> fmt::Result {
    writeln!(out, "{count}")
}

impl State {
    // Nothing is held.
    pub(crate) fn new() -> State {
        State {
            lists: Lists::new(),
            file: Buffer::new(0),
            first: Buffer::new(0),
        }
    }

    // The file that is held becomes the first one of a comparison.
    fn keep_first(&mut self, out: &mut Out) -> fmt::Result {
        self.first.clear();
        self.first.extend(self.file.items());
        put_count(self.first.len(), out)
    }

    // A command, and the text after its word with the space before it.
    fn run(&mut self, command: Command, text: &[u8], out: &mut Out) -> fmt::Result {
        let numbers = Numbers::read(text, 0);
        match command {
            Command::Point => parts::point(numbers.at(0), out),
            Command::Points => parts::points(numbers.at(0), numbers.at(1), out),
            Command::Entry => parts::entry(&numbers, out),
            Command::Search => parts::search(&numbers, out),
            Command::Class => parts::class(&numbers, out),
            Command::Edges => parts::edges(&numbers, out),
            Command::Root => parts::root(fields::long_decimal(text), out),
            Command::Answer => {
                let (kind, numbers) = kind_and_numbers(text);
                answers::answer(kind, &numbers, &self.lists, out)
            }
            Command::Coarse => {
                let (kind, numbers) = kind_and_numbers(text);
                coarse::coarse(kind, &numbers, out)
            }
            Command::Ready => coarse::ready(numbers.at(0), out),
            Command::List => put_count(self.lists.replace_spectral(text), out),
            Command::Column => put_count(self.lists.replace_column(text), out),
            Command::File => put_count(files::replace(&mut self.file, text), out),
            Command::Write => files::write(numbers.at(0), &self.lists, &mut self.file, out),
            Command::Form => files::form(self.file.items(), out),
            Command::Record => files::record(self.file.items(), fields::long_decimal(text), out),
            Command::Read => files::read(self.file.items(), &numbers, out),
            Command::Board => boards::history(text, &self.lists, out),
            Command::First => self.keep_first(out),
            Command::Compare => {
                differences::compare(self.first.items(), self.file.items(), numbers.at(0), out)
            }
            Command::Salvage => salvages::salvage(self.file.items(), text, &numbers, out),
            Command::Convert(kind) => convert(kind, text, &self.lists, out),
        }
    }

    // Answers one line, without its newline.
    pub(crate) fn answer(&mut self, line: &[u8], out: &mut Out) -> fmt::Result {
        let (word, text) = fields::cut(line, b' ');
        self.run(Command::named(fields::name(word)), text, out)
    }
}
