// Whether a text is a path, in one scan from left to right.
ghost use Rattle.std.specs.Prelude.{◌≡◌, ◌∷◌, ℕ, Bool, List, true, false};
ghost use Rattle.xr_paths.specs.inside.Scan.{scan};
ghost use Rattle.xr_model.specs.machine.Paths.{is_path_byte, is_path_text};

const MOST_BYTES: usize = 255;

#[tactic(auto, unfolding(xr_model::specs::machine::Paths::is_path_byte))]
fn is_path_byte(b: u8) -> bool
    ensures { result ≡ is_path_byte b }
{
    matches!(b, b'a'..=b'z' | b'0'..=b'9' | b'-' | b'_' | b'.' | b'/')
}

/// Whether a byte is a small letter, which is no slash and no period.
#[tactic(auto, unfolding(xr_model::specs::machine::Paths::is_path_byte))]
fn is_letter(b: u8) -> bool
    ensures named { result ≡ true → (named : Bool) (bs : List ℕ) → scan named (b ∷ bs) ≡ scan true bs }
{
    b'a' <= b && b <= b'z'
}

/// Whether a text is a path.
#[tactic(auto, using(crate::proofs::Scan::path_text_scan))]
pub(crate) fn is_path_text(text: &[u8]) -> bool
    ensures { result ≡ is_path_text text.now }
{
    if text.is_empty() || text.len() > MOST_BYTES || text[0] != b'/' {
        return false;
    }
    ends_names(&text[1..])
}

/// Whether each byte may stand in a path, and each name that begins in these bytes has a byte other
/// than a period. `named` says that of the name so far. Most bytes are letters, so these are looked for first.
fn ends_names(rest: &[u8]) -> bool
    ensures { result ≡ scan false rest.now }
{
    let mut named = false;
    for b in rest {
        if is_letter(*b) {
            named = true;
        } else if *b == b'/' {
            if !named {
                return false;
            }
            named = false;
        } else if !is_path_byte(*b) {
            return false;
        } else if *b != b'.' {
            named = true;
        }
    }
    named
}
