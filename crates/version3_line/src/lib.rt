// A line of one version written as a line of the other: its parameters and its value.
#![tactic(auto)]

ghost use Rattle.std.specs.Prelude.{◌≡◌, ◌+◌, ◌≤◌, length};
ghost use Rattle.octets.specs.Room.{overlay};
ghost use Rattle.octets.specs.Classes.{Classes};
ghost use Rattle.line_parser.specs.Rule.{parse_line};
ghost use Rattle.property_table.specs.declared.Edition.TheVariants.{First};
ghost use Rattle.card_line.specs.Parts.{line_parts_of};
ghost use Rattle.card_line.specs.Parts.{line};
ghost use Rattle.version3_line.specs.Lines.{needed, parted, anew_by, lacking, filled_by, version_text, geo_by, text_by, new_value, written_by};

use card_line::Parts;
use numbers::{kind, property};
use octets::classes::ClassTable;
use version3_parameters::Way;

// How many bare semicolons a value of the kind has at least.
fn needed(kind: usize) -> usize
    ensures { result ≡ needed kind }
{
    if kind == kind::NAME {
        return 4;
    }
    if kind == kind::ADDRESS {
        return 6;
    }
    0
}

// Whether the texts of a value of the kind are parted by semicolons.
fn is_parted(kind: usize) -> bool
    ensures { result ≡ parted kind }
{
    if kind == kind::NAME {
        return true;
    }
    if kind == kind::ADDRESS {
        return true;
    }
    kind == kind::ORGANIZATION
}

// Writes a value of the kind, its texts escaped anew, to the start of d, and answers how many octets that are.
fn put_text(kind: usize, value: &[u8], d: &mut [u8]) -> usize
    requires { length (anew_by kind value.now) ≤ length d.old }
    ensures { (result ≡ length (anew_by kind value.now)) × (d.new ≡ overlay (anew_by kind value.now) d.old) }
{
    if kind == kind::TEXT {
        return version3_text::renew(true, value, d);
    }
    if is_parted(kind) {
        return version3_text::renew(false, value, d);
    }
    octets::copying::copy_in(d, value);
    value.len()
}

// How many semicolons a value lacks of those that its kind has.
fn count_lacking(kind: usize, value: &[u8]) -> usize
    ensures { result ≡ lacking kind value.now }
{
    let most = needed(kind);
    if most == 0 {
        return 0;
    }
    let n = version3_text::count_semicolons(value);
    if most < n {
        return 0;
    }
    most - n
}

// Writes a value, its texts escaped anew and its components filled up with empty ones.
fn put_filled(kind: usize, value: &[u8], d: &mut [u8]) -> usize
    requires { length (filled_by kind value.now) ≤ length d.old }
    ensures { (result ≡ length (filled_by kind value.now)) × (d.new ≡ overlay (filled_by kind value.now) d.old) }
{
    let n = put_text(kind, value, d);
    let more = count_lacking(kind, value);
    version3_text::put_semicolons(more, &mut d[n..]);
    n + more
}

// Writes the number of the other version.
fn put_version(way: Way, d: &mut [u8]) -> usize
    requires { 3 ≤ length d.old }
    ensures { (result ≡ length (version_text way)) × (d.new ≡ overlay (version_text way) d.old) }
{
    match way {
        Way::Inward => {
            octets::copying::copy_in(d, b"4.0");
            3
        }
        Way::Outward => {
            octets::copying::copy_in(d, b"3.0");
            3
        }
    }
}

// Writes a GEO value of the other version.
fn put_geo(way: Way, value: &[u8], d: &mut [u8]) -> usize
    requires { length value.now + 4 ≤ length d.old }
    ensures { (result ≡ length (geo_by way value.now)) × (d.new ≡ overlay (geo_by way value.now) d.old) }
{
    match way {
        Way::Inward => version3_geo::put_new(value, d),
        Way::Outward => version3_geo::put_old(value, d),
    }
}

// Writes a value of the row and the kind as the other version has it to the start of d, and answers how many octets that are.
fn put_value(way: Way, row: usize, kind: usize, value: &[u8], d: &mut [u8]) -> usize
    requires { (length (new_value way row kind value.now) ≤ length d.old) × (length value.now + 4 ≤ length d.old) }
    ensures { (result ≡ length (new_value way row kind value.now)) × (d.new ≡ overlay (new_value way row kind value.now) d.old) }
{
    if row == property::VERSION {
        return put_version(way, d);
    }
    if row == property::GEO {
        return put_geo(way, value, d);
    }
    match way {
        Way::Inward => put_filled(kind, value, d),
        Way::Outward => put_text(kind, value, d),
    }
}

// Writes the line s with the parts x as the other version has it to the start of d, and answers how many octets that are.
pub fn put_line(way: Way, t: &ClassTable, s: &[u8], x: Parts, d: &mut [u8]) -> usize
    requires classes { Classes t.now }
    requires x_value { line x ≡ line_parts_of First s.now }
    requires s_in_bounds { length (written_by way (parse_line s.now)) + length s.now + 4 ≤ length d.old }
    ensures { (result ≡ length (written_by way (parse_line s.now))) × (d.new ≡ overlay (written_by way (parse_line s.now)) d.old) }
{
    let name_end = x.name_end;
    octets::copying::copy_in(d, &s[..name_end]);
    let n = version3_parameters::put_params(way, t, s, name_end, &mut d[name_end..]);
    let colon = name_end + n;
    d[colon] = b':';
    let from = x.value_start;
    let start = colon + 1;
    let m = put_value(way, x.row, x.kind, &s[from..], &mut d[start..]);
    start + m
}
