// Parts of path texts.
ghost use Rattle.std.specs.Prelude.{◌≡◌, ◌==◌, ◌<◌, ◌++◌, codes, length, IfSome};
ghost use Rattle.std.specs.List.{position};
ghost use Rattle.std.specs.Str.{bytes_eq};
ghost use Rattle.xr_model.specs.machine.Profiles.{before_slash};

use xr_types::behind;

/// The place of the first `/` of an entry.
fn slash_place(entry: &[u8]) -> Option<usize>
    ensures place { result ≡ position (λ b. b == 47) entry.now }
    ensures within { IfSome result (λ k. k < length entry.now) }
{
    entry.iter().position(|byte| *byte == b'/')
}

/// What stands before the first `/` of an entry.
pub(crate) fn before_slash(entry: &[u8]) -> &[u8]
    ensures { result.now ≡ before_slash entry.now }
{
    match slash_place(entry) {
        Some(end) => &entry[..end],
        None => entry,
    }
}

/// Whether a name is an identifier, `/` and a component.
pub(crate) fn is_made_of(name: &[u8], identifier: &[u8], component: &[u8]) -> bool
    ensures { result ≡ bytes_eq (identifier.now ++ codes "/" ++ component.now) name.now }
{
    let Some(rest) = behind(identifier, name) else {
        return false;
    };
    match behind(b"/", rest) {
        Some(last) => component == last,
        None => false,
    }
}
