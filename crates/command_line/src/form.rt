//! The form of a command line: which words may be in it, whatever their values are.
ghost use Rattle.std.specs.Prelude.{◌≡◌, ◌≢◌, ◌↔◌, ◌++◌, true, false, MatchOption, IsTrue, count_by, nat_le, string_bytes};
ghost use Rattle.std.specs.List.{list_any, list_all};
ghost use Rattle.command_line.specs.declared.form.CommandWord.{CommandWord};
ghost use Rattle.command_line.specs.Program.{id_of};
ghost use Rattle.command_line.specs.View.{texts};
ghost use Rattle.command_line.specs.Words.{command_text, slots_of_command, wanted_of, prefix_of, fills_slot, IsForm};

/// The command that a first word names.
#[derive(Clone, Copy)]
pub(crate) enum CommandWord {
    Compile,
    Run,
    Check,
    List,
    Soak,
}

/// What a word after the first is for.
#[derive(Clone, Copy)]
pub(crate) enum Slot {
    /// The one word that is no option.
    Plain,
    Args,
    Answers,
    Steps,
    Stack,
    Heap,
    Moves,
    Fuel,
    Jobs,
    Alloc,
    Schedule,
    Seed,
    Functions,
}

static NO_SLOTS: [Slot; 0] = [];

static COMPILE_SLOTS: [Slot; 3] = [Slot::Jobs, Slot::Alloc, Slot::Schedule];

static RUN_SLOTS: [Slot; 7] = [
    Slot::Plain,
    Slot::Args,
    Slot::Answers,
    Slot::Steps,
    Slot::Stack,
    Slot::Heap,
    Slot::Moves,
];

static CHECK_SLOTS: [Slot; 6] = [
    Slot::Plain,
    Slot::Args,
    Slot::Answers,
    Slot::Fuel,
    Slot::Alloc,
    Slot::Schedule,
];

static LIST_SLOTS: [Slot; 3] = [Slot::Plain, Slot::Alloc, Slot::Schedule];

static PLAIN_SLOT: [Slot; 1] = [Slot::Plain];

static SOAK_SLOTS: [Slot; 2] = [Slot::Seed, Slot::Functions];

impl CommandWord {
    pub(crate) fn named(word: &[u8]) -> Option<CommandWord>
        ensures { MatchOption result
            ((command : CommandWord) → word.now ≢ command_text command)
            (λ command. word.now ≡ command_text command) }
    {
        if word == b"compile".as_slice() {
            Some(CommandWord::Compile)
        } else if word == b"run".as_slice() {
            Some(CommandWord::Run)
        } else if word == b"check".as_slice() {
            Some(CommandWord::Check)
        } else if word == b"list".as_slice() {
            Some(CommandWord::List)
        } else if word == b"soak".as_slice() {
            Some(CommandWord::Soak)
        } else {
            None
        }
    }

    /// The word that names the command.
    pub(crate) fn word<'a>(self) -> &'a str
        ensures { result.now ≡ command_text self }
    {
        match self {
            CommandWord::Compile => "compile",
            CommandWord::Run => "run",
            CommandWord::Check => "check",
            CommandWord::List => "list",
            CommandWord::Soak => "soak",
        }
    }

    /// What the other words may be for.
    pub(crate) fn slots(self) -> &'static [Slot]
        ensures { result.now ≡ slots_of_command self }
    {
        match self {
            CommandWord::Compile => &COMPILE_SLOTS,
            CommandWord::Run => &RUN_SLOTS,
            CommandWord::Check => &CHECK_SLOTS,
            CommandWord::List => &LIST_SLOTS,
            CommandWord::Soak => &SOAK_SLOTS,
        }
    }

    /// What a word has to be there for.
    fn wanted(self) -> &'static [Slot]
        ensures { result.now ≡ wanted_of self }
    {
        match self {
            CommandWord::Compile => &NO_SLOTS,
            CommandWord::Run | CommandWord::Check | CommandWord::List => &PLAIN_SLOT,
            CommandWord::Soak => &SOAK_SLOTS,
        }
    }
}

impl Slot {
    /// The value that the word gives this slot, if it is for it.
    fn value_in(self, word: &[u8]) -> Option<&[u8]>
        ensures { MatchOption result
            (fills_slot self word.now ≡ false)
            (λ value. (fills_slot self word.now ≡ true) × (word.now ≡ prefix_of self ++ value.now)) }
    {
        match self {
            Slot::Plain => {
                if word.starts_with(b"-") {
                    None
                } else {
                    Some(word)
                }
            }
            Slot::Args => word.strip_prefix(b"--args=".as_slice()),
            Slot::Answers => word.strip_prefix(b"--answers=".as_slice()),
            Slot::Steps => word.strip_prefix(b"--steps=".as_slice()),
            Slot::Stack => word.strip_prefix(b"--stack=".as_slice()),
            Slot::Heap => word.strip_prefix(b"--heap=".as_slice()),
            Slot::Moves => word.strip_prefix(b"--moves=".as_slice()),
            Slot::Fuel => word.strip_prefix(b"--fuel=".as_slice()),
            Slot::Jobs => word.strip_prefix(b"--jobs=".as_slice()),
            Slot::Alloc => word.strip_prefix(b"--alloc=".as_slice()),
            Slot::Schedule => word.strip_prefix(b"--schedule=".as_slice()),
            Slot::Seed => word.strip_prefix(b"--seed=".as_slice()),
            Slot::Functions => word.strip_prefix(b"--functions=".as_slice()),
        }
    }

    fn fills(self, word: &[u8]) -> bool
        ensures { result ≡ fills_slot self word.now }
    {
        self.value_in(word).is_some()
    }

    /// The number of words that are for this slot.
    fn count(self, others: &[String]) -> usize
        ensures { result ≡ count_by (fills_slot self) (texts others.now) }
    {
        others
            .iter()
            .filter(|word| self.fills(word.as_bytes()))
            .count()
    }

    /// The slot's name: an option's is between `--` and `=`.
    pub(crate) fn id(self) -> &'static str
        ensures { result.now ≡ id_of self }
    {
        match self {
            Slot::Plain => "word",
            Slot::Args => "args",
            Slot::Answers => "answers",
            Slot::Steps => "steps",
            Slot::Stack => "stack",
            Slot::Heap => "heap",
            Slot::Moves => "moves",
            Slot::Fuel => "fuel",
            Slot::Jobs => "jobs",
            Slot::Alloc => "alloc",
            Slot::Schedule => "schedule",
            Slot::Seed => "seed",
            Slot::Functions => "functions",
        }
    }
}

fn fills_some(slots: &[Slot], word: &[u8]) -> bool
    ensures { result ≡ list_any (λ slot. fills_slot slot word.now) slots.now }
{
    slots.iter().any(|slot| slot.fills(word))
}

fn each_fills(slots: &[Slot], others: &[String]) -> bool
    ensures { result
        ≡ list_all (λ word.
        list_any (λ slot. fills_slot slot (string_bytes word)) slots.now) others.now }
{
    others.iter().all(|word| fills_some(slots, word.as_bytes()))
}

fn each_once(slots: &[Slot], others: &[String]) -> bool
    ensures { result
        ≡ list_all (λ slot. nat_le (count_by (fills_slot slot) (texts others.now)) 1) slots.now }
{
    slots.iter().all(|slot| slot.count(others) <= 1)
}

fn each_there(slots: &[Slot], others: &[String]) -> bool
    ensures { result
        ≡ list_all (λ slot. nat_le 1 (count_by (fills_slot slot) (texts others.now))) slots.now }
{
    slots.iter().all(|slot| slot.count(others) >= 1)
}

/// Whether the words after the first have the form that the command wants.
pub(crate) fn has_form(command: CommandWord, others: &[String]) -> bool
    ensures { IsTrue result ↔ IsForm command (texts others.now) }
{
    each_fills(command.slots(), others)
        && each_once(command.slots(), others)
        && each_there(command.wanted(), others)
}
