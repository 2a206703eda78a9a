// The words of a line on standard output.
use std::io;

// Bytes in hexadecimal, `-` for none.
pub fn bytes(rt: &impl Print, value: &[u8]) -> io::Result<()> {
    if value.is_empty() {
        return print!(rt; "-");
    }
    for x in value {
        print!(rt; "{x:02x}")?;
    }
    Ok(())
}

// Sums joined by commas, without the zeros at the end; `-` where all are 0.
pub fn sums(rt: &impl Print, values: &[u16]) -> io::Result<()> {
    let Some(last) = values.iter().rposition(|sum| *sum != 0) else {
        return print!(rt; "-");
    };
    for (i, sum) in values[..=last].iter().enumerate() {
        if i > 0 {
            print!(rt; ",")?;
        }
        print!(rt; "{sum}")?;
    }
    Ok(())
}
