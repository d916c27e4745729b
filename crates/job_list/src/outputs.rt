// Which files the jobs of a list write, and whether two of them are the same.

ghost use Rattle.std.specs.Prelude.{◌≡◌, map, string_bytes};
ghost use Rattle.std.specs.List.{list_all, list_any};
ghost use Rattle.std.specs.Str.{bytes_eq};
ghost use Rattle.plain_words.specs.Distinct.{are_distinct as distinct_spec};
ghost use Rattle.job_list.specs.Lists.{written_by};
ghost use Rattle.job_list.specs.Apart.{are_apart as apart_spec, is_new};

use crate::line::ListLine;
use plain_words::distinct::{are_distinct, is_among};

/// Whether the job writes no file twice, and none that an earlier job writes.
pub(crate) fn writes_only_new(earlier: &[ListLine], line: &ListLine) -> bool
    ensures { result ≡ is_new line.now earlier.now }
{
    is_distinct(line) && are_all_apart(earlier, line)
}

fn is_distinct(line: &ListLine) -> bool
    ensures { result ≡ distinct_spec (written_by line.now) }
{
    !is_among(line.report.as_str(), line.outs.as_slice()) && are_distinct(line.outs.as_slice())
}

fn are_all_apart(earlier: &[ListLine], line: &ListLine) -> bool
    ensures { result
        ≡ list_all (λ e. apart_spec (written_by e) (written_by line.now)) earlier.now }
{
    match earlier {
        [first, rest @ ..] => is_apart(first, line) && are_all_apart(rest, line),
        [] => true,
    }
}

fn is_apart(earlier: &ListLine, line: &ListLine) -> bool
    ensures { result ≡ apart_spec (written_by earlier.now) (written_by line.now) }
{
    !writes(line, earlier.report.as_str()) && writes_none(line, earlier.outs.as_slice())
}

fn writes_none(line: &ListLine, names: &[String]) -> bool
    ensures { result ≡ apart_spec (map string_bytes names.now) (written_by line.now) }
{
    match names {
        [first, rest @ ..] => !writes(line, first.as_str()) && writes_none(line, rest),
        [] => true,
    }
}

fn writes(line: &ListLine, name: &str) -> bool
    ensures { result ≡ list_any (bytes_eq name.now) (written_by line.now) }
{
    name == line.report.as_str() || is_among(name, line.outs.as_slice())
}
