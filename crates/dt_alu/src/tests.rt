use super::*;

// The results are those of Python's integers, by the words of Volume I, chapters 2, 5, 7 and 8.

const ONES: u64 = 0xffff_ffff_ffff_ffff;

const LEAST: u64 = 0x8000_0000_0000_0000;

const MOST: u64 = 0x7fff_ffff_ffff_ffff;

const MINUS_TWO: u64 = 0xffff_ffff_ffff_fffe;

const MINUS_SEVEN: u64 = 0xffff_ffff_ffff_fff9;

const WORD_ONES: u64 = 0xffff_ffff;

const WORD_LEAST: u64 = 0x8000_0000;

const WORD_LEAST_EXTENDED: u64 = 0xffff_ffff_8000_0000;

const LEFT: u64 = 0x1234_5678_9abc_def0;

const RIGHT: u64 = 0x0fed_cba9_8765_4321;

// Operation, W form, operands, result.
const ALU_ROWS: [(AluOp, bool, u64, u64, u64); 79] = [
    (AluOp::Add, false, ONES, 1, 0),
    (AluOp::Add, false, MOST, 1, LEAST),
    (AluOp::Add, true, 0x7fff_ffff, 1, WORD_LEAST_EXTENDED),
    (AluOp::Add, true, 0xdead_beef_ffff_ffff, 1, 0),
    (AluOp::Sub, false, 0, 1, ONES),
    (AluOp::Sub, false, LEFT, RIGHT, 0x0246_8acf_1357_9bcf),
    (AluOp::Sub, true, WORD_LEAST, 1, 0x7fff_ffff),
    (AluOp::Sub, true, 0, 1, ONES),
    (AluOp::Sll, false, 1, 63, LEAST),
    (AluOp::Sll, false, 1, 64, 1),
    (AluOp::Sll, false, LEFT, 68, 0x2345_6789_abcd_ef00),
    (AluOp::Sll, true, 1, 31, WORD_LEAST_EXTENDED),
    (AluOp::Sll, true, 1, 32, 1),
    (AluOp::Sll, true, LEFT, 36, 0xffff_ffff_abcd_ef00),
    (AluOp::Slt, false, ONES, 0, 1),
    (AluOp::Slt, false, 0, ONES, 0),
    (AluOp::Slt, false, LEAST, MOST, 1),
    (AluOp::Slt, false, 5, 5, 0),
    (AluOp::Sltu, false, ONES, 0, 0),
    (AluOp::Sltu, false, 0, ONES, 1),
    (AluOp::Sltu, false, 5, 5, 0),
    (AluOp::Xor, false, LEFT, RIGHT, 0x1dd9_9dd1_1dd9_9dd1),
    (AluOp::Or, false, LEFT, RIGHT, 0x1ffd_dff9_9ffd_dff1),
    (AluOp::And, false, LEFT, RIGHT, 0x0224_4228_8224_4220),
    (AluOp::Srl, false, LEAST, 63, 1),
    (AluOp::Srl, false, LEAST, 64, LEAST),
    (AluOp::Srl, true, WORD_LEAST_EXTENDED, 4, 0x0800_0000),
    (AluOp::Srl, true, WORD_LEAST, 32, WORD_LEAST_EXTENDED),
    (AluOp::Sra, false, LEAST, 63, ONES),
    (AluOp::Sra, false, LEAST, 68, 0xf800_0000_0000_0000),
    (AluOp::Sra, false, MOST, 62, 1),
    (AluOp::Sra, true, WORD_LEAST, 31, ONES),
    (AluOp::Sra, true, WORD_LEAST, 36, 0xffff_ffff_f800_0000),
    (AluOp::Sra, true, 0xffff_ffff_7fff_ffff, 30, 1),
    (AluOp::Mul, false, ONES, ONES, 1),
    (AluOp::Mul, false, LEFT, RIGHT, 0x2236_d88f_e561_8cf0),
    (AluOp::Mul, true, 0x7fff_ffff, 0x7fff_ffff, 1),
    (AluOp::Mul, true, WORD_ONES, WORD_LEAST, WORD_LEAST_EXTENDED),
    (AluOp::Mulh, false, LEAST, LEAST, 0x4000_0000_0000_0000),
    (AluOp::Mulh, false, ONES, ONES, 0),
    (AluOp::Mulh, false, ONES, 1, ONES),
    (AluOp::Mulh, false, LEAST, MOST, 0xc000_0000_0000_0000),
    (
        AluOp::Mulh,
        false,
        LEFT,
        0xf012_3456_789a_bcdf,
        0xfede_05ff_5288_28bd,
    ),
    (AluOp::Mulhsu, false, ONES, ONES, ONES),
    (AluOp::Mulhsu, false, LEAST, ONES, LEAST),
    (AluOp::Mulhsu, false, MOST, ONES, 0x7fff_ffff_ffff_fffe),
    (AluOp::Mulhsu, false, 1, ONES, 0),
    (
        AluOp::Mulhsu,
        false,
        0xedcb_a987_6543_2110,
        RIGHT,
        0xfede_05ff_5288_28bd,
    ),
    (AluOp::Mulhu, false, ONES, ONES, MINUS_TWO),
    (AluOp::Mulhu, false, LEAST, LEAST, 0x4000_0000_0000_0000),
    (AluOp::Mulhu, false, ONES, 1, 0),
    (AluOp::Mulhu, false, LEFT, RIGHT, 0x0121_fa00_ad77_d742),
    (AluOp::Div, false, LEAST, ONES, LEAST),
    (AluOp::Div, false, 7, 0, ONES),
    (AluOp::Div, false, MINUS_SEVEN, 2, 0xffff_ffff_ffff_fffd),
    (AluOp::Div, false, 7, MINUS_TWO, 0xffff_ffff_ffff_fffd),
    (AluOp::Div, false, MINUS_SEVEN, MINUS_TWO, 3),
    (AluOp::Div, true, WORD_LEAST, WORD_ONES, WORD_LEAST_EXTENDED),
    (AluOp::Div, true, MINUS_SEVEN, 0, ONES),
    (AluOp::Div, true, 0x0001_0000_0007, 0xffff_ffff_0000_0002, 3),
    (AluOp::Divu, false, 7, 0, ONES),
    (AluOp::Divu, false, ONES, 2, MOST),
    (AluOp::Divu, false, LEAST, ONES, 0),
    (AluOp::Divu, true, 7, 0, ONES),
    (AluOp::Divu, true, WORD_ONES, 1, ONES),
    (AluOp::Divu, true, WORD_LEAST, WORD_ONES, 0),
    (AluOp::Rem, false, LEAST, ONES, 0),
    (AluOp::Rem, false, MINUS_SEVEN, 2, ONES),
    (AluOp::Rem, false, 7, MINUS_TWO, 1),
    (AluOp::Rem, false, MINUS_SEVEN, MINUS_TWO, ONES),
    (AluOp::Rem, false, MINUS_SEVEN, 0, MINUS_SEVEN),
    (AluOp::Rem, true, WORD_LEAST, WORD_ONES, 0),
    (AluOp::Rem, true, 0xffff_fff9, 2, ONES),
    (AluOp::Rem, true, WORD_LEAST, 0, WORD_LEAST_EXTENDED),
    (AluOp::Remu, false, 7, 0, 7),
    (AluOp::Remu, false, ONES, 10, 5),
    (AluOp::Remu, true, WORD_ONES, 0, ONES),
    (AluOp::Remu, true, WORD_ONES, 10, 5),
    (
        AluOp::Remu,
        true,
        WORD_LEAST,
        WORD_ONES,
        WORD_LEAST_EXTENDED,
    ),
];

// Condition, operands, whether the branch is taken.
const COMPARE_ROWS: [(Cond, u64, u64, bool); 18] = [
    (Cond::Eq, ONES, 1, false),
    (Cond::Eq, 1, ONES, false),
    (Cond::Eq, LEAST, LEAST, true),
    (Cond::Ne, ONES, 1, true),
    (Cond::Ne, 1, ONES, true),
    (Cond::Ne, LEAST, LEAST, false),
    (Cond::Lt, ONES, 1, true),
    (Cond::Lt, 1, ONES, false),
    (Cond::Lt, LEAST, LEAST, false),
    (Cond::Ge, ONES, 1, false),
    (Cond::Ge, 1, ONES, true),
    (Cond::Ge, LEAST, LEAST, true),
    (Cond::Ltu, ONES, 1, false),
    (Cond::Ltu, 1, ONES, true),
    (Cond::Ltu, LEAST, LEAST, false),
    (Cond::Geu, ONES, 1, true),
    (Cond::Geu, 1, ONES, false),
    (Cond::Geu, LEAST, LEAST, true),
];

// Operation, width, memory, register, what is written.
const AMO_ROWS: [(AmoOp, u8, u64, u64, u64); 24] = [
    (AmoOp::Swap, 4, LEFT, RIGHT, 0x8765_4321),
    (AmoOp::Swap, 8, LEFT, RIGHT, RIGHT),
    (AmoOp::Add, 4, WORD_ONES, 1, 0),
    (AmoOp::Add, 8, WORD_ONES, 1, 0x0001_0000_0000),
    (AmoOp::Add, 8, ONES, 2, 1),
    (AmoOp::Xor, 4, LEFT, RIGHT, 0x1dd9_9dd1),
    (AmoOp::And, 4, LEFT, RIGHT, 0x8224_4220),
    (AmoOp::Or, 4, LEFT, RIGHT, 0x9ffd_dff1),
    (
        AmoOp::Min,
        4,
        0x0001_ffff_ffff,
        0xffff_ffff_0000_0001,
        WORD_ONES,
    ),
    (AmoOp::Min, 4, 1, WORD_LEAST, WORD_LEAST),
    (AmoOp::Min, 8, WORD_ONES, 1, 1),
    (AmoOp::Min, 8, ONES, 1, ONES),
    (AmoOp::Max, 4, 0x0001_ffff_ffff, 0xffff_ffff_0000_0001, 1),
    (AmoOp::Max, 4, 1, WORD_LEAST, 1),
    (AmoOp::Max, 8, WORD_ONES, 1, WORD_ONES),
    (AmoOp::Max, 8, ONES, 1, 1),
    (AmoOp::Minu, 4, 0x0001_ffff_ffff, 0xffff_ffff_0000_0001, 1),
    (AmoOp::Minu, 4, 1, WORD_LEAST, 1),
    (AmoOp::Minu, 8, WORD_ONES, 1, 1),
    (AmoOp::Minu, 8, ONES, 1, 1),
    (
        AmoOp::Maxu,
        4,
        0x0001_ffff_ffff,
        0xffff_ffff_0000_0001,
        WORD_ONES,
    ),
    (AmoOp::Maxu, 4, 1, WORD_LEAST, WORD_LEAST),
    (AmoOp::Maxu, 8, WORD_ONES, 1, WORD_ONES),
    (AmoOp::Maxu, 8, ONES, 1, ONES),
];

// Width, signed, raw bytes, the extended value.
const EXTEND_ROWS: [(u8, bool, u64, u64); 16] = [
    (1, true, 0x0180, 0xffff_ffff_ffff_ff80),
    (1, false, 0x0180, 128),
    (1, true, 0xff7f, 127),
    (1, false, 0xff7f, 127),
    (2, true, 0x0001_8000, 0xffff_ffff_ffff_8000),
    (2, false, 0x0001_8000, 0x8000),
    (2, true, 0x000f_7fff, 0x7fff),
    (2, false, 0x000f_7fff, 0x7fff),
    (4, true, 0x0001_8000_0000, WORD_LEAST_EXTENDED),
    (4, false, 0x0001_8000_0000, WORD_LEAST),
    (4, true, 0x000f_7fff_ffff, 0x7fff_ffff),
    (4, false, 0x000f_7fff_ffff, 0x7fff_ffff),
    (8, true, LEAST, LEAST),
    (8, false, LEAST, LEAST),
    (8, true, LEFT, LEFT),
    (8, false, LEFT, LEFT),
];

#[test]
fn alu_gives_the_value_of_the_manual(rt: HostRuntime) {
    for (op, word, a, b, want) in ALU_ROWS {
        assert!(rt; !word || op.has_word_form(), "{op:?} has no W form");
        assert_eq!(rt; alu(op, word, a, b), want, "{op:?} {word} {a:x} {b:x}");
    }
}

#[test]
fn compare_tells_whether_a_branch_is_taken(rt: HostRuntime) {
    for (c, a, b, want) in COMPARE_ROWS {
        assert_eq!(rt; compare(c, a, b), want, "{c:?} {a:x} {b:x}");
    }
}

#[test]
fn amo_gives_the_bytes_written(rt: HostRuntime) {
    for (op, width, old, b, want) in AMO_ROWS {
        assert!(rt; matches!(width, 4 | 8));
        assert_eq!(rt;
            amo(op, width, old, b),
            want,
            "{op:?} {width} {old:x} {b:x}"
        );
    }
}

#[test]
fn extend_fills_the_upper_bytes(rt: HostRuntime) {
    for (width, signed, raw, want) in EXTEND_ROWS {
        assert!(rt; matches!(width, 1 | 2 | 4 | 8));
        assert_eq!(rt;
            extend(width, signed, raw),
            want,
            "{width} {signed} {raw:x}"
        );
    }
}
