use super::*;
use std::alloc::{AllocError, Global};

/// The hashes of words are what Ceph 16's `crush_hash32` to `crush_hash32_5` answer.
#[test]
fn hashes_of_words_are_those_of_ceph(rt: HostRuntime) {
    let most = 0xffff_ffff;
    assert_eq!(rt; hash1(0), 398_764_043);
    assert_eq!(rt; hash1(1), 3_574_081_617);
    assert_eq!(rt; hash1(most), 2_138_160_170);
    assert_eq!(rt; hash1(123_456_789), 3_829_408_485);
    assert_eq!(rt; hash2(0, 1), 91_478_055);
    assert_eq!(rt; hash2(most, 7), 2_874_985_758);
    assert_eq!(rt; hash3(0, most, 0), 573_963_155);
    assert_eq!(rt; hash3(1, 2, 3), 1_935_332_395);
    assert_eq!(rt; hash4(0, 1, 0, most), 2_425_877_818);
    assert_eq!(rt; hash4(1, 2, 3, 4), 1_768_759_062);
    assert_eq!(rt; hash5(0, 0, 0, 0, 0), 2_757_644_291);
    assert_eq!(rt; hash5(1, 2, 3, 4, 5), 1_262_657_953);
    assert_eq!(rt; hash5(most, most, most, most, most), 4_292_350_227);
}

/// The hashes of names are what Ceph 16's `ceph_str_hash_rjenkins` answers: at whole groups of 12
/// bytes, one byte to either side, and high bytes.
#[test]
fn hashes_of_names_are_those_of_ceph(rt: HostRuntime) {
    assert_eq!(rt; name_hash(b""), 3_175_731_469);
    assert_eq!(rt; name_hash(b"a"), 703_514_648);
    assert_eq!(rt; name_hash(b"rbd_data.000"), 959_611_020);
    assert_eq!(rt; name_hash(b"rbd_data.0001"), 2_364_946_008);
    assert_eq!(rt; name_hash(b"10000000000.00000000"), 4_038_422_320);
    assert_eq!(rt; name_hash(b"abcdefghijklmnopqrstuvwxyz"), 3_308_244_712);
    assert_eq!(rt; name_hash(&[255; 11]), 3_618_022_123);
    assert_eq!(rt; name_hash(&[255; 23]), 3_106_678_743);
    assert_eq!(rt; name_hash(&[255; 24]), 251_151_190);
    assert_eq!(rt; name_hash(&[b'a'; 261]), 4_031_594_443);
    assert_eq!(rt; name_hash(&[b'a'; 1_024]), 2_736_148_844);
}

/// What Ceph 16's `ceph_str_hash_rjenkins` answers for the names of some lengths;
/// `tests/ceph/check_names` asks it anew.
const NAME_HASHES: [(u32, u32); 88] = [
    (0, 3_175_731_469),
    (1, 2_558_242_537),
    (2, 674_392_344),
    (3, 884_175_264),
    (4, 2_058_373_837),
    (5, 4_037_018_384),
    (6, 1_180_470_069),
    (7, 437_535_280),
    (8, 1_073_978_621),
    (9, 1_774_518_740),
    (10, 389_458_834),
    (11, 4_255_500_712),
    (12, 2_899_819_573),
    (13, 602_591_300),
    (14, 1_592_334_132),
    (15, 4_291_605_741),
    (16, 3_480_227_040),
    (17, 3_355_425_460),
    (18, 1_576_677_910),
    (19, 3_637_303_469),
    (20, 1_473_767_677),
    (21, 2_478_136_015),
    (22, 3_340_015_001),
    (23, 401_928_752),
    (24, 3_114_488_711),
    (25, 740_286_890),
    (26, 1_174_528_624),
    (27, 2_892_082_077),
    (28, 747_291_421),
    (29, 2_901_548_287),
    (30, 2_882_109_960),
    (31, 1_399_212_613),
    (32, 4_130_736_771),
    (33, 1_859_084_843),
    (34, 2_403_167_559),
    (35, 714_792_218),
    (36, 4_029_828_436),
    (37, 2_322_805_913),
    (38, 1_253_177_664),
    (39, 523_445_194),
    (40, 1_410_354_573),
    (255, 3_026_101_601),
    (256, 1_631_252_203),
    (257, 297_185_060),
    (258, 2_296_901_413),
    (259, 3_629_639_440),
    (260, 1_181_305_606),
    (261, 4_074_283_162),
    (262, 2_552_696_942),
    (263, 2_467_667_130),
    (264, 149_631_324),
    (265, 693_215_482),
    (266, 81_633_039),
    (267, 2_965_563_461),
    (268, 1_084_464_262),
    (269, 3_022_560_709),
    (270, 2_410_166_171),
    (271, 3_749_292_223),
    (272, 2_731_506_753),
    (273, 245_220_701),
    (274, 1_173_242_944),
    (275, 2_231_402_818),
    (276, 4_181_166_861),
    (277, 2_284_779_467),
    (278, 2_919_399_831),
    (279, 3_393_306_675),
    (280, 2_928_117_538),
    (281, 2_022_660_337),
    (282, 3_803_373_503),
    (283, 3_839_901_298),
    (284, 1_209_316_867),
    (285, 1_000_662_776),
    (286, 4_026_801_703),
    (287, 1_205_544_849),
    (288, 4_008_308_606),
    (289, 3_755_818_446),
    (290, 2_956_767_837),
    (291, 3_784_436_663),
    (292, 1_926_010_162),
    (293, 1_165_094_922),
    (294, 3_241_322_102),
    (295, 889_947_778),
    (296, 2_230_730_811),
    (297, 3_305_949_125),
    (298, 742_573_218),
    (299, 4_204_296_004),
    (300, 1_428_151_362),
    (1_024, 32_670_644),
];

/// Returns the name of n = `length` bytes in the table: its byte i is (7 n + 31 i) mod 256.
fn name_of(alloc: Global, length: u32) -> Result<Vec<u8>, AllocError> {
    let mut name = Vec::new(alloc);
    for i in 0..length {
        let byte = length.wrapping_mul(7).wrapping_add(i.wrapping_mul(31)) % 256;
        name.push(byte as u8)?;
    }
    Ok(name)
}

/// Ceph's hashes are met at each number of bytes behind whole groups, at lengths of one byte and of
/// two, and by each value of a byte; and by the bytes 1 to 255 twice.
#[test]
fn hashes_of_names_of_many_lengths_are_those_of_ceph(rt: HostRuntime) -> Result<(), AllocError> {
    for (length, wanted) in NAME_HASHES {
        let name = name_of(rt.alloc(), length)?;
        assert_eq!(rt; name.len(), length as usize);
        assert_eq!(rt; name_hash(&name), wanted, "{length}");
    }
    let mut twice = Vec::new(rt.alloc());
    for i in 0..510u32 {
        twice.push((1 + i % 255) as u8)?;
    }
    assert_eq!(rt; twice.len(), 510);
    assert_eq!(rt; name_hash(&twice), 1_685_759_182);
    Ok(())
}
