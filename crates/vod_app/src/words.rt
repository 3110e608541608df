//! The words of the command line.

ghost use Rattle.std.specs.Prelude.{◌≡◌, ◌∷◌, [], MatchOption, None, Some, map, string_bytes};
ghost use Rattle.vod_app.specs.Commands.{count_up_to};

use std::string::String;
use vod_types::numbers::number_up_to;

/// The words of a request: the folder of all files, the settings file or `-`, and the path.
#[derive(Clone, Copy, Debug)]
pub struct Request<'a> {
    pub root: &'a str,
    pub settings: &'a str,
    pub path: &'a str,
}

/// In which order connections are served.
#[derive(Clone, Copy, Debug, PartialEq, Eq)]
pub enum Order {
    /// One after another.
    OneByOne,
    /// In turns.
    InTurns,
}

/// The words of a command that serves connections: the folder of all files, the settings file or `-`, the address, how many
/// connections are served, and in which order.
#[derive(Clone, Copy, Debug)]
pub struct Service<'a> {
    pub root: &'a str,
    pub settings: &'a str,
    pub addr: &'a str,
    pub count: u32,
    pub order: Order,
}

/// A command.
#[derive(Clone, Copy, Debug)]
pub enum Command<'a> {
    /// Writes the answer of a path.
    Get(Request<'a>),
    /// Writes the reads that the answer of a path makes.
    Reads(Request<'a>),
    /// Writes the listed segments of a media playlist's path.
    Plan(Request<'a>),
    /// Writes the whole packaging of the path of a master playlist or of a media presentation description.
    Pack(Request<'a>),
    /// Serves connections.
    Serve(Service<'a>),
    /// Rehearses the film of a number.
    Rehearse(u32),
}

impl<'a> Command<'a> {
    ghost use Rattle.list_model.specs.Command.{command_of};
    ghost use Rattle.vod_app.specs.Commands.{spelled};

    /// Reads `get|reads|plan|pack ROOT SETTINGS PATH`, `serve|turns ROOT SETTINGS ADDR COUNT` or `rehearse N`, none of whose
    /// words is empty; `None` where the words are of no form. COUNT is from 1 and at most 64 for `turns`.
    pub fn read(words: &'a [String]) -> Option<Command<'a>>
        ensures { MatchOption result
            (command_of (map string_bytes words.now) ≡ None)
            (λ command. command_of (map string_bytes words.now) ≡ Some (spelled command)) }
    {
        if words.len() == 5 {
            return Command::of_service(&words[0], &words[1], &words[2], &words[3], &words[4]);
        }
        if words.len() == 2 {
            return Command::of_rehearsal(&words[0], &words[1]);
        }
        if words.len() != 4 {
            return None;
        }
        Command::of_form(&words[0], &words[1], &words[2], &words[3])
    }

    // The command of two words.
    fn of_rehearsal(form: &'a str, number: &'a str) -> Option<Command<'a>>
        ensures { MatchOption result
            (command_of (form.now ∷ number.now ∷ []) ≡ None)
            (λ command. command_of (form.now ∷ number.now ∷ []) ≡ Some (spelled command)) }
    {
        match form {
            "rehearse" => match number_up_to(u32::MAX, number) {
                Some(n) => Some(Command::Rehearse(n)),
                None => None,
            },
            _ => None,
        }
    }

    // The command of four words.
    fn of_form(
        form: &'a str,
        root: &'a str,
        settings: &'a str,
        path: &'a str,
    ) -> Option<Command<'a>>
        ensures { MatchOption result
            (command_of (form.now ∷ root.now ∷ settings.now ∷ path.now ∷ []) ≡ None)
            (λ command. command_of (form.now ∷ root.now ∷ settings.now ∷ path.now ∷ []) ≡ Some (spelled command)) }
    {
        if root.is_empty() || settings.is_empty() || path.is_empty() {
            return None;
        }
        let request = Request {
            root,
            settings,
            path,
        };
        match form {
            "get" => Some(Command::Get(request)),
            "reads" => Some(Command::Reads(request)),
            "plan" => Some(Command::Plan(request)),
            "pack" => Some(Command::Pack(request)),
            _ => None,
        }
    }

    // The command of five words.
    fn of_service(
        form: &'a str,
        root: &'a str,
        settings: &'a str,
        addr: &'a str,
        count: &'a str,
    ) -> Option<Command<'a>>
        ensures { MatchOption result
            (command_of (form.now ∷ root.now ∷ settings.now ∷ addr.now ∷ count.now ∷ []) ≡ None)
            (λ command. command_of (form.now ∷ root.now ∷ settings.now ∷ addr.now ∷ count.now ∷ []) ≡ Some (spelled command)) }
    {
        if root.is_empty() || settings.is_empty() || addr.is_empty() {
            return None;
        }
        let (order, most) = Order::of_form(form)?;
        let count = count_up_to(most, count)?;
        Some(Command::Serve(Service {
            root,
            settings,
            addr,
            count,
            order,
        }))
    }
}

impl Order {
    ghost use Rattle.vod_app.specs.Commands.{order_of_form};

    // The order of a form that serves connections, and how many of them it takes at most.
    fn of_form(form: &str) -> Option<(Order, u32)>
        ensures { result ≡ order_of_form form.now }
    {
        match form {
            "serve" => Some((Order::OneByOne, u32::MAX)),
            "turns" => Some((Order::InTurns, 64)),
            _ => None,
        }
    }
}

// The number that a text spells, from 1 to `most`.
fn count_up_to(most: u32, text: &str) -> Option<u32>
    ensures { result ≡ count_up_to most text.now }
{
    match number_up_to(most, text)? {
        0 => None,
        count => Some(count),
    }
}
