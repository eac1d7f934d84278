use super::*;

/// A program that is given words, one of which is no text.
struct Given;

impl Env for Given {
    fn arg(&self, i: usize, buf: &mut [u8]) -> Result<usize, FillError> {
        let bytes = match i {
            0 => b"quick".as_slice(),
            1 => b"compile".as_slice(),
            2 => b"\xff".as_slice(),
            3 => return Err(FillError::TooLong),
            4 => b"image".as_slice(),
            _ => return Err(FillError::NotPresent),
        };
        if bytes.len() > buf.len() {
            return Err(FillError::TooLong);
        }
        buf[..bytes.len()].copy_from_slice(bytes);
        Ok(bytes.len())
    }

    fn var(&self, _name: &str, _buf: &mut [u8]) -> Result<usize, FillError> {
        Err(FillError::NotPresent)
    }

    fn var_at(&self, _i: usize, _buf: &mut [u8]) -> Result<usize, FillError> {
        Err(FillError::NotPresent)
    }
}

#[test]
fn passes_what_is_no_text_as_an_empty_word(rt: HostRuntime) -> Result<(), AllocError> {
    let words = words(&Given, rt.alloc())?;
    assert_eq!(rt; words.len(), 4);
    for (place, want) in ["compile", "", "", "image"].iter().enumerate() {
        assert!(rt;
            words.get(place).is_some_and(|word| word.as_str() == *want),
            "at {place}"
        );
    }
    Ok(())
}
