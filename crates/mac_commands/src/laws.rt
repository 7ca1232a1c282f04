//! Laws of the definitions that contracts cite.

ghost use Rattle.std.specs.Prelude.{◌≡◌, List, Option, ℕ, drop, false};
ghost use Rattle.std.specs.List.{All};
ghost use Rattle.std.specs.Str.{IsUtf8};
ghost use Rattle.clap.specs.Words.{fault_of};
ghost use Rattle.mac_decide.specs.Answer.{full_answer};
ghost use Rattle.mac_keys.specs.Revoked.{nothing};
ghost use Rattle.mac_commands.specs.CommandLine.{LeadsTo, command_line, gives_list};
ghost use Rattle.mac_commands.specs.CommandLine.{names_another, status_of_arguments};
ghost use Rattle.mac_commands.specs.Pipe.{answer_beside};
ghost use Rattle.mac_commands.specs.PipeText.{pipe_text};
ghost use Rattle.mac_commands.specs.Status.{status_code};

use crate::input::INPUT_MAX;
use crate::status::Status;

/// The exit statuses and the greatest input are these numbers.
pub fn statuses_and_the_bound_are_numbers()
    ensures done { status_code Status.Done ≡ 0 }
    ensures refused { status_code Status.Refused ≡ 1 }
    ensures keys { status_code Status.BadKeys ≡ 1 }
    ensures line { status_code Status.BadLine ≡ 2 }
    ensures device { status_code Status.DeviceFault ≡ 3 }
    ensures memory { status_code Status.NoMemory ≡ 4 }
    ensures input { INPUT_MAX ≡ 16777216 }
{}

/// What `clap` makes of a command line with no other subcommand than `pipe`, and no `--revoked`
/// right behind its name, is what the plain words say: it is taken where the words after the
/// program's name are `pipe`, or `pipe` and `--`; it asks for help where the first of them, or the
/// one after `pipe`, is `--help` or begins with `-h`, and for the version where the first is
/// `--version` or begins with `-V`; each other is refused.
#[tactic(auto, using(crate::proofs::PlainWords::plain_status))]
pub fn command_line_in_plain_words()
    ensures { (words : List (List ℕ)) → All IsUtf8 words → names_another (drop 1 words) ≡ false
        → gives_list (drop 1 words) ≡ false
        → LeadsTo (status_of_arguments (drop 1 words)) (fault_of command_line words) }
{}

/// Beside a list that takes nothing back, the pipe writes what it writes under the keys alone.
#[tactic(auto, using(crate::proofs::PipeLemmas::without_list))]
pub fn a_list_of_nothing_changes_no_answer()
    ensures { (moment : Option ℕ) (input : List ℕ) → pipe_text (answer_beside nothing moment) input
        ≡ pipe_text (full_answer moment) input }
{}
