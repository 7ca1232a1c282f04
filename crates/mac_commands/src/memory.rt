//! How much memory the process may have, as the system tells.

ghost use Rattle.std.specs.Prelude.{◌≡◌, ◌≤◌};
ghost use Rattle.mac_commands.specs.Memory.{half_of_memory};
ghost use Rattle.mac_commands.specs.declared.commands.TheConstants.{MEMORY_MAX, MEMORY_MIN};

use crate::commands::{MEMORY_MAX, MEMORY_MIN};
use crate::input::read_input;
use crate::lines::next_line;
use mac_wire::ReaderSource;
use std::alloc::{Alloc, Global};
use std::fs::{File, Files};
use std::str;

/// How many bytes it is taken to have where the system tells nothing: a gibibyte.
const UNTOLD: u64 = 1_073_741_824;

/// Where the system tells in which control group the process is.
const GROUP: &str = "/proc/self/cgroup";

/// What stands in front of the group's path there.
const GROUP_FRONT: &[u8] = b"0::";

/// Where the system tells what memory the machine has, and how that line begins.
const MACHINE: &str = "/proc/meminfo";

const MACHINE_FRONT: &[u8] = b"MemTotal:";

/// The bytes of memory that connections and remembered tokens have, where none are asked for: half
/// of what the process's control group may have or the machine has, whichever is less.
pub fn find_memory<R>(rt: &R) -> u64
where
    R: Files + Alloc<A = Global>,
    R::File: Send,
    ensures least { MEMORY_MIN ≤ result }
    ensures most { result ≤ MEMORY_MAX }
{
    let told = match (group_memory(rt), machine_memory(rt)) {
        (Some(group), Some(machine)) => group.min(machine),
        (Some(group), None) => group,
        (None, Some(machine)) => machine,
        (None, None) => UNTOLD,
    };
    half_of(told)
}

/// Half of what was told, but for what `--memory` takes.
fn half_of(told: u64) -> u64
    ensures { result ≡ half_of_memory told }
{
    (told / 2).max(MEMORY_MIN).min(MEMORY_MAX)
}

/// How many bytes the control group may have, where it has a limit.
fn group_memory<R>(rt: &R) -> Option<u64>
where
    R: Files + Alloc<A = Global>,
    R::File: Send,
{
    let groups = read_all(rt, GROUP)?;
    let path = rest_of_line(groups.as_slice(), GROUP_FRONT)?;
    let path = str::from_utf8(path).ok()?;
    let limit = format!(in rt.alloc(); "/sys/fs/cgroup{path}/memory.max").ok()?;
    let told = read_all(rt, limit.as_str())?;
    first_number(told.as_slice())
}

/// How many bytes the machine has.
fn machine_memory<R>(rt: &R) -> Option<u64>
where
    R: Files + Alloc<A = Global>,
    R::File: Send,
{
    let told = read_all(rt, MACHINE)?;
    let kibibytes = first_number(rest_of_line(told.as_slice(), MACHINE_FRONT)?)?;
    kibibytes.checked_mul(1_024)
}

/// The bytes of a file, where it can be read.
fn read_all<R>(rt: &R, path: &str) -> Option<Vec<u8>>
where
    R: Files + Alloc<A = Global>,
    R::File: Send,
{
    let file = File::open(rt, path).ok()?;
    read_input(rt.alloc(), &mut ReaderSource::new(file)).ok()
}

/// What stands behind the front of the first line that begins so.
fn rest_of_line<'a>(text: &'a [u8], front: &[u8]) -> Option<&'a [u8]> {
    let mut rest = text;
    for _ in 0..text.len() {
        let (line, behind) = next_line(rest)?;
        if let Some(told) = line.strip_prefix(front) {
            return Some(told);
        }
        rest = behind;
    }
    None
}

/// The number that stands first, behind blanks.
fn first_number(text: &[u8]) -> Option<u64> {
    let text = text.trim_ascii_start();
    let end = text.iter().position(|byte| !byte.is_ascii_digit());
    let digits = text.get(..end.unwrap_or(text.len()))?;
    str::from_utf8(digits).ok()?.parse::<u64>().ok()
}
