use swi_field::{bits, put_bits, sign};

// BNE x5, x0, -4 has funct7 1111111; ADDI x0, x0, 0 with rd 10 is ADDI a0, x0, 0; -4 in 13 bits.
#[test]
fn fields_of_known_words(rt: HostRuntime) {
    assert_eq!(rt; bits::<31, 25>(0xFE02_9EE3), 0x7F);
    assert_eq!(rt; bits::<31, 0>(0xFE02_9EE3), 0xFE02_9EE3);
    assert_eq!(rt; put_bits::<11, 7>(0x0000_0013, 10), 0x0000_0513);
    assert_eq!(rt; put_bits::<31, 0>(0x0000_0013, 0xFFFF_FFFF), 0xFFFF_FFFF);
    assert_eq!(rt; sign::<13>(0x1FFC), 0xFFFF_FFFC);
    assert_eq!(rt; sign::<13>(0x0FFC), 0x0FFC);
    assert_eq!(rt; sign::<32>(0x8000_0000), 0x8000_0000);
}
