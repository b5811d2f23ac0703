// How the fields are shown for debugging: by the modulus, however it is held.
use fields::{Pairs, Residues};
use std::test::Fail;

#[test]
fn fields_show_the_modulus(rt: HostRuntime) -> Result<(), Fail> {
    let (pairs, residues) = (Pairs::new(7)?, Residues::new(97)?);
    let text = format!(in rt.alloc(); "{pairs:?} {residues:?}")?;
    assert_eq!(rt; text.as_str(), "Pairs { p: 7 } Residues { q: 97 }");
    Ok(())
}
