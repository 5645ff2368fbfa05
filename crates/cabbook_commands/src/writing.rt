// `fold`, `escape`, `unescape`, `encode` and `decode`: octets to standard output.
ghost use Rattle.std.specs.Prelude.{IfOk};
ghost use Rattle.cabbook_output.specs.Ends.{Status};

use cabbook_output::{Ended, File};
use cabbook_tables::status;
use folder_raising::Style;
use label_carets::Rule;
use numbers::limit;
use numbers::refusal::Refusal;
use program_host::{Host, STDERR, STDOUT};
use property_table::Edition;

// The form in which octets are written.
#[derive(Clone, Copy, Debug, PartialEq, Eq)]
pub enum Form {
    Folded(Edition, Style),
    Escaped,
    Unescaped,
    Encoded(Rule),
    Decoded(Rule),
}

// Writes octets in a form to room.
fn write(form: Form, s: &[u8], room: &mut [u8]) -> Result<usize, Refusal> {
    match form {
        Form::Folded(edition, style) => folder::fold_styled(edition, style, s, room),
        Form::Escaped => text::escape(s, room),
        Form::Unescaped => text::unescape(s, room),
        Form::Encoded(rule) => label::encode(rule, s, room),
        Form::Decoded(rule) => label::decode(rule, s, room),
    }
}

// Prints what is to be known of octets that a form refuses, and answers the exit status.
fn print_refused(host: &mut Host, form: Form, file: File, r: Refusal) -> Ended
    ensures { IfOk result Status }
{
    match form {
        Form::Folded(_, _) => cabbook_output::print_refusal(host, STDERR, file, r),
        _ => cabbook_output::print_refused(host, STDERR, file, r),
    }
}

// Writes a file in a form to standard output, or what is to be known of a refusal, and answers the exit status.
pub(crate) fn deliver(host: &mut Host, form: Form, file: File) -> Ended
    ensures { IfOk result Status }
{
    let mut room = [0u8; limit::OCTETS];
    match write(form, file.octets, &mut room) {
        Ok(n) => {
            cabbook_output::send(host, STDOUT, &room, n)?;
            Ok(status::ACCEPTED)
        }
        Err(r) => print_refused(host, form, file, r),
    }
}
