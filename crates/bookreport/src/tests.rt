// The works book through the whole way, and the refusal that no text brings about.
use super::{examine, report_of};
use booktext::{write, written_len};
use soundbook::{WorksBook, smallest_book};
use std::test::Fail;

#[test]
fn works_book_is_sound(rt: HostRuntime) -> Result<(), Fail> {
    let mut place = smallest_book();
    soundbook::check(&WorksBook, &mut place)?;
    let mut space = vec![in rt.alloc(); 0u8; written_len(&place)]?;
    let len = write(&place, space.as_mut_slice())?;
    assert_eq!(rt; len, 374);
    let said = report_of(rt.alloc(), space.as_slice())?;
    assert!(rt;
        said.as_str().starts_with(
            "sound book\nparts 2, keys 5, start 1\nrules 5, symbols 11\nwritten back byte for byte\n",
        )
    );
    Ok(())
}

#[test]
fn short_space_is_refused(rt: HostRuntime) -> Result<(), Fail> {
    let place = smallest_book();
    let mut space = vec![in rt.alloc(); 0u8; written_len(&place)]?;
    write(&place, space.as_mut_slice())?;
    let mut short = [0u8; 101];
    let Err(fault) = examine(space.as_slice(), &mut short) else {
        return Err(Fail::new("the space was taken"));
    };
    assert_eq!(rt; fault.number(), 6);
    assert_eq!(rt; fault.layer(), 1);
    assert_eq!(rt; fault.first(), 0);
    assert_eq!(rt; fault.second(), 0);
    Ok(())
}
