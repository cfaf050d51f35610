#![tactic(auto)]

use swi_line::Line;

#[test]
fn a_line_has_its_parts_one_behind_the_other(rt: HostRuntime) {
    let mut line = Line::new();
    line.push_text("at ");
    line.push_hex_word(0x0001_A0f0);
    line.push_text(" ");
    line.push_hex_byte(0x0a);
    line.push_text(" ");
    line.push_decimal(18_446_744_073_709_551_615);
    assert_eq!(rt;
        line.as_bytes(),
        b"at 0001a0f0 0a 18446744073709551615".as_slice()
    );
}
