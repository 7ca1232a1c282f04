//! What operators are told of numbers.

ghost use Rattle.std.specs.Prelude.{◌≡◌, ◌++◌, OnOk, option_copied};
ghost use Rattle.mac_gate.specs.KeyLines.{told_lines};
ghost use Rattle.mac_gate.specs.KeyUses.{use_lines};
ghost use Rattle.mac_gate.specs.Numbers.{numbers_text, status_page, version_back, version_front};
ghost use Rattle.mac_gate.specs.Numbers.{version_metric};

use crate::key_lines::append_told_keys;
use crate::key_uses::append_use_lines;
use mac_count::{Snapshot, append_metrics, append_status, append_version};
use mac_decide::NameCounts;
use mac_keys::KeyTable;
use std::alloc::{AllocError, Global};

/// Appends the page of numbers, in Prometheus's text form.
pub(crate) fn append_numbers(
    alloc: Global,
    version: &str,
    numbers: &Snapshot,
    text: &mut Vec<u8>,
) -> Result<(), AllocError>
    ensures { OnOk result (text.new.items
        ≡ text.old.items ++ numbers_text version.now numbers.now) }
{
    append_version_metric(version, text)?;
    append_metrics(alloc, numbers, text)
}

/// What a daemon has counted.
#[derive(Clone, Copy)]
pub(crate) struct Shown<'a> {
    /// Its numbers.
    pub numbers: &'a Snapshot,
    /// How the keys of each name are used.
    pub uses: &'a [NameCounts],
}

/// Appends the page of a daemon's status, which may tell of these keys.
pub(crate) fn append_status_page(
    alloc: Global,
    version: &str,
    shown: &Shown<'_>,
    keys: Option<&KeyTable>,
    text: &mut Vec<u8>,
) -> Result<(), AllocError>
    ensures { OnOk result (text.new.items ≡ text.old.items ++ status_page version.now
        shown.now.numbers.now shown.now.uses.now (option_copied keys.entry)) }
{
    append_version(version, text)?;
    append_status(alloc, shown.numbers, text)?;
    append_of_keys(alloc, shown.uses, keys, text)
}

/// Appends how keys are used, and the keys that may be told.
fn append_of_keys(
    alloc: Global,
    uses: &[NameCounts],
    keys: Option<&KeyTable>,
    text: &mut Vec<u8>,
) -> Result<(), AllocError>
    ensures { OnOk result (text.new.items
        ≡ text.old.items ++ (use_lines uses.now ++ told_lines (option_copied keys.entry))) }
{
    append_use_lines(alloc, uses, text)?;
    append_told_keys(alloc, keys, text)
}

/// Appends the version in Prometheus's text form: a metric whose value is 1, with a label.
fn append_version_metric(version: &str, text: &mut Vec<u8>) -> Result<(), AllocError>
    ensures { OnOk result (text.new.items ≡ text.old.items ++ version_metric version.now) }
{
    append_version_front(text)?;
    append_version_rest(version, text)
}

/// Appends what stands in front of the version there.
fn append_version_front(text: &mut Vec<u8>) -> Result<(), AllocError>
    ensures { OnOk result (text.new.items ≡ text.old.items ++ version_front) }
{
    text.extend_from_slice(b"# TYPE macaroond_build_info gauge\nmacaroond_build_info{version=\"")
}

/// Appends the version, and what stands behind it there.
fn append_version_rest(version: &str, text: &mut Vec<u8>) -> Result<(), AllocError>
    ensures { OnOk result (text.new.items ≡ text.old.items ++ (version.now ++ version_back)) }
{
    text.extend_from_slice(version.as_bytes())?;
    text.extend_from_slice(b"\"} 1\n")
}
