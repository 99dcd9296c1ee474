// Localized names that are no UTF-8, as no scenario has them, beside some that are.
use std::test::Fail;
use xr_names::check_localized;
use xr_types::Code;

/// Localized names, and what they are answered with.
const LOCALIZED: &[(&[u8], Code)] = &[
    (b"a", Code::Success),
    (b"Play it", Code::Success),
    (b".", Code::Success),
    (b"\x00", Code::Success),
    (b"\xc3\xa9", Code::Success),
    (b"\xf0\x9f\x98\x80", Code::Success),
    (b"", Code::LocalizedNameInvalid),
    (b"\x80", Code::LocalizedNameInvalid),
    (b"a\xff", Code::LocalizedNameInvalid),
    (b"\xc3", Code::LocalizedNameInvalid),
    (b"\xc0\xaf", Code::LocalizedNameInvalid),
    (b"\xed\xa0\x80", Code::LocalizedNameInvalid),
    (b"\xf4\x90\x80\x80", Code::LocalizedNameInvalid),
];

#[test]
fn localized_names_are_utf8_of_1_to_127_bytes(rt: HostRuntime) -> Result<(), Fail> {
    for (name, code) in LOCALIZED {
        assert!(rt; check_localized(name) == *code, "{name:?}");
    }
    let longest = check_localized(&[b' '; 127]) == Code::Success;
    let too_long = check_localized(&[b' '; 128]) == Code::LocalizedNameInvalid;
    let mut accent = [b'a'; 127];
    accent[125] = 0xc3;
    accent[126] = 0xa9;
    let whole = check_localized(&accent) == Code::Success;
    let ends_amid = check_localized(&accent[..126]) == Code::LocalizedNameInvalid;
    assert!(rt; longest && too_long && whole && ends_amid);
    Ok(())
}
