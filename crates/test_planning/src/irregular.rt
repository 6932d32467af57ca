//! Plans of irregular coteries, whose weights are hard to find.
use crate::draws::{draw_capacities, draw_sets};
use planner::plan;
use quorum_set::{Coterie, QSet};
use rand_core::SeedableRng;
use rand_pcg::Pcg64;
use std::alloc::{AllocError, Global};
use std::test::Fail;
use test_plans::are_capacities;

/// Sets of 11 of 21 voters, drawn at random. Voter i is bit i of a number.
const OF_21: [u64; 54] = [
    0x73cf, 0x16dcd, 0x1e51f, 0x1f7a2, 0x299db, 0x3765a, 0x3df90, 0x3e98d, 0x751ab, 0x83b9b,
    0x98b5e, 0x99d1e, 0x9cd9c, 0xd0bba, 0xdf20d, 0xe61ab, 0xe819f, 0xfc839, 0xfec60, 0x10bb5a,
    0x11953d, 0x11a2d7, 0x125af2, 0x127b64, 0x12a46f, 0x12bd15, 0x13169b, 0x134ae5, 0x138dc5,
    0x13ab29, 0x13c6e8, 0x14856f, 0x14d365, 0x14f691, 0x150b5d, 0x15927c, 0x15d037, 0x161793,
    0x16551d, 0x167d0c, 0x1683da, 0x18199f, 0x18ed54, 0x193335, 0x193ec4, 0x1be82c, 0x1c087f,
    0x1c362d, 0x1cca3a, 0x1d5e05, 0x1e42ae, 0x1e5383, 0x1f0d19, 0x1f9a05,
];

/// Sets of 15 of 29 voters, drawn at random. Voter i is bit i of a number.
const OF_29: [u64; 79] = [
    0x1375ba9, 0x15fbe03, 0x1628fed, 0x193ddca, 0x1a1d79e, 0x1bc5877, 0x1f1f269, 0x2703b3f,
    0x2f036f9, 0x30ed96e, 0x44aed3d, 0x47f107b, 0x4e90f9d, 0x539e92d, 0x567a656, 0x56ebb18,
    0x5ee9d18, 0x6eabc52, 0x75da81d, 0x76e3545, 0x937f191, 0x9dd9516, 0xa375caa, 0xab43e9a,
    0xab6d8d8, 0xaeff050, 0xaf246e3, 0xb91771c, 0xbc4cf1a, 0xc3c613f, 0xc9cd15e, 0xcf7e092,
    0xd7cb88c, 0xee1057b, 0xf22ca73, 0x109fcc74, 0x11e1e25e, 0x13278fc2, 0x13829f36, 0x138cba72,
    0x139a39d8, 0x13f23b18, 0x143a477c, 0x14c19fac, 0x153d48f1, 0x15655571, 0x15691a6b, 0x16063f69,
    0x1633ac66, 0x1647cb38, 0x165037ce, 0x16f26523, 0x16f93941, 0x1724395e, 0x1755c139, 0x175867d0,
    0x1781ed62, 0x1804be5f, 0x183ed58c, 0x187835e6, 0x18e8ce4e, 0x18f7c862, 0x191ef485, 0x19278b2b,
    0x193a7c8c, 0x1a0d06df, 0x1a2d093f, 0x1a81acf9, 0x1b0b5a78, 0x1b12b4a7, 0x1b294aec, 0x1b5b92c1,
    0x1bc6388b, 0x1d27416e, 0x1d986336, 0x1e6490e7, 0x1e67ac50, 0x1ed82b83, 0x1f874f80,
];

/// Sets of 20 of 38 voters, drawn at random. Voter i is bit i of a number.
const OF_38: [u64; 92] = [
    0x5e7ef389,
    0x479626afb,
    0x537263b3d,
    0x57e75822f,
    0x5db239733,
    0x6f8aad939,
    0x72c8ea7ad,
    0xae51f8ace,
    0xaf0cc9fd4,
    0xb29df126b,
    0xb44c7cbf4,
    0xb88bb9b39,
    0xcbc8f2f15,
    0xcdf3ec324,
    0xd769f8325,
    0xd7f2816ab,
    0xdc1ec6bd1,
    0xf3114f579,
    0xf6a29fb41,
    0xfcea2794a,
    0xfdfb18a03,
    0xff742dd02,
    0x104edb08ff,
    0x11afb768b0,
    0x11b722ccbd,
    0x129eea0bc7,
    0x138671f5c6,
    0x14b30adea7,
    0x14e2badb16,
    0x15039b5f1b,
    0x1531987dd5,
    0x159714c3db,
    0x15d55bc549,
    0x17526b7487,
    0x17e0be8c53,
    0x196806fea7,
    0x1b29e07b2b,
    0x1b4967555a,
    0x1d226533bb,
    0x1d3f2e06a3,
    0x1d7d3ca4c4,
    0x1d8e487fc2,
    0x1db4b3a287,
    0x1eeb5a0738,
    0x1efc51d2c4,
    0x1f1ead4692,
    0x2217275757,
    0x22809ffe2e,
    0x23338bb764,
    0x23dd2e88ad,
    0x2433c937ae,
    0x251e4b0f9b,
    0x255d8aa6f4,
    0x259e23e1a7,
    0x26c5bd2e8c,
    0x278d8b1ed2,
    0x2795762a8e,
    0x27b83714cd,
    0x28f394eba4,
    0x299a5b06f9,
    0x29dd8351e5,
    0x29f4db6a44,
    0x2ac5d36e2a,
    0x2b1b24a73b,
    0x2d3403e5be,
    0x2e1e29dcc6,
    0x2e33193bd1,
    0x2e799b3a24,
    0x2f8d9bc4c8,
    0x304e0fcbb3,
    0x30f72ec4c5,
    0x31d3f28e0e,
    0x31dcec09ec,
    0x3224b3a73e,
    0x323ead8a87,
    0x32e482fd72,
    0x32ee8d3945,
    0x330bbc5279,
    0x3360bbc539,
    0x3525dcda98,
    0x35455c7473,
    0x35ea0af076,
    0x3632fd50b1,
    0x39167c9dd0,
    0x39469eca3c,
    0x3c7be71209,
    0x3d83d5a09e,
    0x3daf252259,
    0x3e1718b8d3,
    0x3e3fb88305,
    0x3e54f0bb21,
    0x3ed7d09434,
];

/// Sets of 21 of 40 voters, drawn at random. Voter i is bit i of a number.
const OF_40: [u64; 85] = [
    0x21d8fee9b,
    0xd61d7b873,
    0x13cc9fb4e8,
    0x1815febd52,
    0x21c781e7ed,
    0x24a9816fdf,
    0x25ce89b5ec,
    0x276f67e086,
    0x2bfb2b2a34,
    0x2c24edbcab,
    0x2deaf89153,
    0x2eb887cd6a,
    0x314fabe34c,
    0x34b6f93163,
    0x35ce9a6d85,
    0x3986037b7b,
    0x3db15e0dc5,
    0x3db56c42dc,
    0x3e4f938746,
    0x3f5d030f47,
    0x41d561fab9,
    0x43197fc78c,
    0x43ca6c3e3d,
    0x473f84e4b3,
    0x47f1c3a46e,
    0x48a96dadad,
    0x4a7baac639,
    0x4be63a695c,
    0x51ecfb40cd,
    0x5635767929,
    0x5703a1ddce,
    0x5827d788db,
    0x5856aedc4b,
    0x5b8fa39037,
    0x5cf7352a45,
    0x5d360596ed,
    0x5e6833dd62,
    0x5e78579127,
    0x64ae7b0e6a,
    0x6c8bc8376b,
    0x6ca64e0ef5,
    0x6e37a23927,
    0x7e4bb23a62,
    0x7f6cf21522,
    0x81bd9d9359,
    0x845b62abee,
    0x8753bdb131,
    0x92c9d07bd5,
    0x95ddb8196a,
    0x95e876495d,
    0x963db56c45,
    0x97c88edfc0,
    0x9e883d78cd,
    0xa1c1e1b65f,
    0xa520d689ff,
    0xabf4273a32,
    0xac32b4d55d,
    0xaca6ef1724,
    0xb9da8f49a4,
    0xba9bc83c2d,
    0xc54f226fd8,
    0xc999f237b0,
    0xcc75cac2f1,
    0xced66f064a,
    0xd043777571,
    0xd08e7446f7,
    0xd282cb273f,
    0xd4270fe2ba,
    0xd4c947d3e2,
    0xdc986269f6,
    0xe1dc769c23,
    0xe27c2efd40,
    0xe33b591e32,
    0xe33cb82c9e,
    0xe481b346ef,
    0xe617c0ab6e,
    0xe9ac316337,
    0xebd1079359,
    0xee864a36d9,
    0xeea658b871,
    0xf159980fab,
    0xf1c6ae54ca,
    0xf704bd4aa5,
    0xfc626afc14,
    0xfe07913cd1,
];

/// Coteries whose voters all have capacity 1: their voters and quorums, the load of a plan, and the most
/// tickets of its cycle.
///
/// Both searches end at a corner of the face of the best weights. It gives none of the last three a
/// plan, and the first one of 168,483 tickets. Each gets this one from a point inside the face.
const COTERIES: [(usize, &[u64], (u64, u64), u64); 4] = [
    (21, &OF_21, (11, 21), 105),
    (29, &OF_29, (15, 29), 174),
    (38, &OF_38, (10, 19), 418),
    (40, &OF_40, (21, 40), 400),
];

/// Returns the sets of these bits.
fn sets_of_bits(alloc: Global, all: &[u64]) -> Result<Vec<QSet>, AllocError> {
    let mut sets = Vec::with_capacity(alloc, all.len())?;
    for bits in all {
        sets.push(QSet::of_bits(*bits))?;
    }
    Ok(sets)
}

/// Returns whether a coterie has a plan of this load, with a cycle of at most this length.
fn is_planned(alloc: Global, coterie: &Coterie, load: (u64, u64), longest: u64) -> bool {
    match plan(alloc, coterie, &[1; 64][..coterie.voters()]) {
        Ok(plan) => (plan.load() == load) & (plan.cycle_len() <= longest),
        Err(_) => false,
    }
}

/// Nothing is proved of the numbers that `basis` finds, except how many there are. It is left to this
/// test to refuse an `inner_weights` that never finds any, and an `inverse` by another power.
#[test]
fn points_inside_the_face_are_found(rt: HostRuntime) -> Result<(), Fail> {
    for (voters, quorums, load, longest) in &COTERIES {
        let coterie = Coterie::of(*voters, sets_of_bits(rt.alloc(), quorums)?)?;
        assert!(rt; is_planned(rt.alloc(), &coterie, *load, *longest));
    }
    Ok(())
}

/// How many voters the random coteries have, and how many quorums. Of the 30 all are planned.
const SIZES: [(u8, usize); 3] = [(20, 60), (25, 60), (30, 90)];

/// The greatest capacities of the voters. They are drawn from 1 on.
const CAPACITIES: [u64; 2] = [1, 8];

/// How many coteries there are of each size and greatest capacity.
const SEEDS: u64 = 5;

/// Returns whether a plan is found for the coterie of a seed.
fn has_plan(alloc: Global, size: (u8, usize), greatest: u64, seed: u64) -> Result<bool, Fail> {
    let mut rng = Pcg64::seed_from_u64(seed);
    let coterie = Coterie::of(usize::from(size.0), draw_sets(&mut rng, alloc, size)?)?;
    let capacities = draw_capacities(&mut rng, alloc, size.0, greatest)?;
    if !are_capacities(&capacities, coterie.voters()) {
        return Ok(false);
    }
    Ok(plan(alloc, &coterie, &capacities).is_ok())
}

/// Returns whether a plan is found for each seed.
fn are_all_planned(alloc: Global, size: (u8, usize), greatest: u64) -> Result<bool, Fail> {
    for seed in 0..SEEDS {
        if !has_plan(alloc, size, greatest, seed)? {
            return Ok(false);
        }
    }
    Ok(true)
}

#[test]
fn random_coteries_are_planned(rt: HostRuntime) -> Result<(), Fail> {
    for size in &SIZES {
        for greatest in &CAPACITIES {
            assert!(rt; are_all_planned(rt.alloc(), *size, *greatest)?);
        }
    }
    Ok(())
}
