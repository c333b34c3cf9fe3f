// What the arguments of a program ask for.
ghost use Rattle.std.specs.Prelude.{◌≡◌, MatchOption, MatchResult, ◌≢◌, map, string_bytes};
ghost use Rattle.arguments.specs.Flags.{written, with_flag, TakenAs, Untaken, AsksForHelp, AsksFor};
ghost use Rattle.arguments.specs.Flags.{FirstUntaken};

/// An argument.
#[derive(Clone, Copy, PartialEq, Eq)]
pub enum Flag {
    Help,
    Show,
    Times,
}

/// What the arguments ask for besides --help.
#[derive(Clone, Copy)]
pub struct Asked {
    pub show: bool,
    pub times: bool,
}

impl Asked {
    // What is asked for with a flag more.
    fn with(self, flag: Flag) -> Asked
        ensures { result ≡ with_flag self flag }
    {
        match flag {
            Flag::Help => self,
            Flag::Show => Asked { show: true, ..self },
            Flag::Times => Asked {
                times: true,
                ..self
            },
        }
    }
}

// The flag that an argument is, if it is one.
fn read_flag(argument: &str) -> Option<Flag>
    ensures { MatchOption result ((f : Flag) → argument.now ≢ written f)
        (λ f. argument.now ≡ written f) }
{
    match argument {
        "--help" => Some(Flag::Help),
        "--show" => Some(Flag::Show),
        "--times" => Some(Flag::Times),
        _ => None,
    }
}

// The flag that an argument is, if that is --help or one that the program takes.
fn taken_flag(argument: &str, taken: &[Flag]) -> Option<Flag>
    ensures { MatchOption result (Untaken taken.now argument.now) (TakenAs taken.now argument.now) }
{
    match read_flag(argument)? {
        Flag::Help => Some(Flag::Help),
        flag => taken.contains(&flag).then_some(flag),
    }
}

/// What the arguments ask for, if each is --help or one of the flags that the program takes: none
/// at the first --help, whatever comes behind it. Else the first that is not.
pub fn read_arguments<'a>(
    arguments: &'a [String],
    taken: &[Flag],
) -> Result<Option<Asked>, &'a String>
    ensures { let given = map string_bytes arguments.now in
        MatchResult result
        (λ asked. MatchOption asked (AsksForHelp taken.now given) (AsksFor taken.now given))
        (λ found. FirstUntaken taken.now given (string_bytes found.now)) }
{
    let mut asked = Asked {
        show: false,
        times: false,
    };
    for argument in arguments {
        let Some(flag) = taken_flag(argument.as_str(), taken) else {
            return Err(argument);
        };
        if flag == Flag::Help {
            return Ok(None);
        }
        asked = asked.with(flag);
    }
    Ok(Some(asked))
}
