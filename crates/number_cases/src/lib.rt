// Numbers, read and compared with what they stand for.
#![tactic(auto)]

#[cfg(test)]
mod tests {
    use numbers::format::{decode_format, read_number};
    use numbers::number::{Number, read_leb128};
    use personality::fault::{Cause, Fault};

    // Bytes, and the number that they are.
    #[derive(Clone, Copy)]
    struct Encoded<'a> {
        bytes: &'a [u8],
        value: i64,
    }

    impl<'a> Encoded<'a> {
        // The number, which takes all of the bytes.
        fn number(&self) -> Number {
            Number {
                value: self.value,
                next: self.bytes.len(),
            }
        }
    }

    // Bytes that are no number, and why.
    #[derive(Clone, Copy)]
    struct Faulty<'a> {
        bytes: &'a [u8],
        cause: Cause,
    }

    // Whether a LEB128 number takes all of the bytes and has the value.
    fn reads_as(case: Encoded, signed: bool) -> bool {
        read_leb128(case.bytes, 0, signed) == Ok(case.number())
    }

    // Whether the bytes are refused for the cause, at their first byte.
    fn fails_by(case: Faulty, signed: bool) -> bool {
        read_leb128(case.bytes, 0, signed)
            == Err(Fault {
                cause: case.cause,
                offset: 0,
                layer: 0,
            })
    }

    // Whether a format's number takes so many of the bytes and has the value.
    fn reads_in(code: u8, case: Encoded) -> bool {
        decode_format(code).is_some_and(|format| read_number(case.bytes, 0, format)
            == Ok(case.number()))
    }

    // The unsigned examples of the DWARF standard.
    #[test]
    fn dwarf_unsigned(rt: HostRuntime) {
        let cases = [
            Encoded {
                bytes: &[0x02],
                value: 2,
            },
            Encoded {
                bytes: &[0x7f],
                value: 127,
            },
            Encoded {
                bytes: &[0x80, 0x01],
                value: 128,
            },
            Encoded {
                bytes: &[0x81, 0x01],
                value: 129,
            },
            Encoded {
                bytes: &[0x82, 0x01],
                value: 130,
            },
            Encoded {
                bytes: &[0xb9, 0x64],
                value: 12857,
            },
        ];
        for case in cases {
            assert!(rt; reads_as(case, false));
        }
    }

    // The signed examples of the DWARF standard.
    #[test]
    fn dwarf_signed(rt: HostRuntime) {
        let cases = [
            Encoded {
                bytes: &[0x02],
                value: 2,
            },
            Encoded {
                bytes: &[0x7e],
                value: -2,
            },
            Encoded {
                bytes: &[0xff, 0x00],
                value: 127,
            },
            Encoded {
                bytes: &[0x81, 0x7f],
                value: -127,
            },
            Encoded {
                bytes: &[0x80, 0x01],
                value: 128,
            },
            Encoded {
                bytes: &[0x80, 0x7f],
                value: -128,
            },
            Encoded {
                bytes: &[0x81, 0x01],
                value: 129,
            },
            Encoded {
                bytes: &[0xff, 0x7e],
                value: -129,
            },
        ];
        for case in cases {
            assert!(rt; reads_as(case, true));
        }
    }

    // The ends of 32 bits, and numbers that are longer than they need to be.
    #[test]
    fn ends_of_32_bits(rt: HostRuntime) {
        assert!(rt;
            reads_as(
                Encoded {
                    bytes: &[0xff, 0xff, 0xff, 0xff, 0x0f],
                    value: 4294967295,
                },
                false,
            )
        );
        assert!(rt;
            reads_as(
                Encoded {
                    bytes: &[0xff, 0xff, 0xff, 0xff, 0x07],
                    value: 2147483647,
                },
                true,
            )
        );
        assert!(rt;
            reads_as(
                Encoded {
                    bytes: &[0x80, 0x80, 0x80, 0x80, 0x78],
                    value: -2147483648,
                },
                true,
            )
        );
        assert!(rt;
            reads_as(
                Encoded {
                    bytes: &[0x82, 0x80, 0x80, 0x80, 0x00],
                    value: 2,
                },
                false,
            )
        );
        assert!(rt;
            reads_as(
                Encoded {
                    bytes: &[0xfe, 0xff, 0xff, 0xff, 0x7f],
                    value: -2,
                },
                true,
            )
        );
    }

    // A number ends within five bytes and fits 32 bits.
    #[test]
    fn refused(rt: HostRuntime) {
        let unsigned = [
            Faulty {
                bytes: &[],
                cause: Cause::CutShort,
            },
            Faulty {
                bytes: &[0x80],
                cause: Cause::CutShort,
            },
            Faulty {
                bytes: &[0xff, 0xff, 0xff, 0xff],
                cause: Cause::CutShort,
            },
            Faulty {
                bytes: &[0x80, 0x80, 0x80, 0x80, 0x10],
                cause: Cause::TooLarge,
            },
            Faulty {
                bytes: &[0x80, 0x80, 0x80, 0x80, 0x80],
                cause: Cause::TooLarge,
            },
            Faulty {
                bytes: &[0x80, 0x80, 0x80, 0x80, 0x80, 0x00],
                cause: Cause::TooLarge,
            },
        ];
        for case in unsigned {
            assert!(rt; fails_by(case, false));
        }
        let signed = [
            Faulty {
                bytes: &[0x80, 0x80, 0x80, 0x80, 0x08],
                cause: Cause::TooLarge,
            },
            Faulty {
                bytes: &[0xff, 0xff, 0xff, 0xff, 0x77],
                cause: Cause::TooLarge,
            },
            Faulty {
                bytes: &[0xff, 0xff, 0xff, 0xff, 0xff],
                cause: Cause::TooLarge,
            },
        ];
        for case in signed {
            assert!(rt; fails_by(case, true));
        }
    }

    // Each format by size and sign, with all bits set and with the highest bit alone.
    #[test]
    fn formats(rt: HostRuntime) {
        assert!(rt;
            reads_in(
                0x00,
                Encoded {
                    bytes: &[0xff, 0xff, 0xff, 0xff],
                    value: 4294967295,
                },
            )
        );
        assert!(rt;
            reads_in(
                0x01,
                Encoded {
                    bytes: &[0xff, 0x7e],
                    value: 16255,
                },
            )
        );
        assert!(rt;
            reads_in(
                0x02,
                Encoded {
                    bytes: &[0x01, 0x80],
                    value: 32769,
                },
            )
        );
        assert!(rt;
            reads_in(
                0x03,
                Encoded {
                    bytes: &[0x04, 0x03, 0x02, 0x01],
                    value: 16909060,
                },
            )
        );
        assert!(rt;
            reads_in(
                0x09,
                Encoded {
                    bytes: &[0xff, 0x7e],
                    value: -129,
                },
            )
        );
        assert!(rt;
            reads_in(
                0x0a,
                Encoded {
                    bytes: &[0x01, 0x80],
                    value: -32767,
                },
            )
        );
        assert!(rt;
            reads_in(
                0x0b,
                Encoded {
                    bytes: &[0x00, 0x00, 0x00, 0x80],
                    value: -2147483648,
                },
            )
        );
    }

    // Every other code is refused.
    #[test]
    fn refused_formats(rt: HostRuntime) {
        for code in [
            0x04u8, 0x05, 0x06, 0x07, 0x08, 0x0c, 0x0d, 0x0e, 0x0f, 0x10, 0x1b, 0x80, 0x9b, 0xff,
        ] {
            assert!(rt; decode_format(code).is_none());
        }
    }
}
