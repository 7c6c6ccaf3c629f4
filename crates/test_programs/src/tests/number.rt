//! Numbers as tools print them, and the texts that are none.
use cadence_value::spelled::read_spelled;
use std::alloc::Global;
use std::test::Fail;

// Texts, and after the sign `=` the numbers that are read from them, as a line has them. Where no number stands after
// the sign, the text is none. The rows are one literal, because the check of a function takes longer with each literal.
const ROWS: &str = "
    0=0 08=8 +1=1 -0.0=0 -0=0 .5=0.5 -.5=-0.5 1.=1 12.50=12.5 1e3=1000 1.5e3=1500 1e+06=1000000
    1E-2=0.01 12.5e-1=1.25 -2.50E+1=-25 100e-2=1 0e99=0 0e-99=0 0.0e-2147483648=0
    1e38=100000000000000000000000000000000000000
    170141183460469231731687303715884105727=170141183460469231731687303715884105727
    -170141183460469231731687303715884105728=-170141183460469231731687303715884105728
    10e-31=0.000000000000000000000000000001 0.00000000000000000000000000000000000000001e41=1
    1.00000000000000000000000000000000000000000=1
    17014118346046923173168730371588410572700000e-5=170141183460469231731687303715884105727 =
    += .= -.= e3= .e3= 1e= 1e+= 1e3.0= 1e3e3= +-1= 1.2.3= 0x10= inf= 1e39= 1e-31= 1e2147483648=
    170141183460469231731687303715884105728=
";

// Returns whether this number is read from the text.
fn is_read_as(alloc: Global, text: &str, number: &str) -> Result<bool, Fail> {
    match read_spelled(text) {
        Some(found) => Ok(format!(in alloc; "{found}")?.as_str() == number),
        None => Ok(number.is_empty()),
    }
}

#[test]
fn numbers_are_read_as_tools_print_them(rt: HostRuntime) -> Result<(), Fail> {
    for row in ROWS.split_whitespace() {
        let (text, number) = row.split_once('=').unwrap_or((row, "a number"));
        assert!(rt; is_read_as(rt.alloc(), text, number)?, "{row}");
    }
    Ok(())
}
