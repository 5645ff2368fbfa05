// Octets as pairs of hexadecimal digits, or `-` for none.
ghost use Rattle.std.specs.Prelude.{◌≡◌};
ghost use Rattle.program_output.specs.Pages.{page, added};
ghost use Rattle.console_answers.specs.Texts.{octets_word};

// Adds octets as a word.
pub fn put_octets(out: &mut [u8], at: usize, octets: &[u8]) -> usize
    ensures { page result out.new ≡ added (octets_word octets.now) (page at out.old) }
{
    if octets.is_empty() {
        return program_output::put(out, at, b'-');
    }
    let mut end = at;
    for octet in octets {
        end = program_output::digits::put_pair(out, end, *octet);
    }
    end
}
