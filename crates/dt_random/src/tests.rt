use crate::Draws;

/// The draws of another program of this generator; the third seed begins it with 1.
#[test]
fn first_draws_of_seeds(rt: HostRuntime) {
    for (seed, first, second) in [
        (0, 0xdc1b_77ae_0bf3_4dad, 0x64f0_eeb9_026e_6076),
        (1, 0xdc1b_77ae_4b71_6dec, 0x74f0_afbf_0e6f_7437),
        (0x9e37_79b9_7f4a_7c15, 1_082_269_761, 0x1000_4106_0c01_1441),
        (u64::MAX, 0xdc1b_77ae_3473_526d, 0x6b0f_5147_0190_8f89),
    ] {
        let mut draws = Draws::of(seed);
        assert_eq!(rt; draws.draw(), first, "{seed:x}");
        assert_eq!(rt; draws.draw(), second, "{seed:x}");
    }
}
