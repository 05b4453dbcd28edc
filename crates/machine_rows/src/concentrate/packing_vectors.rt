//! Values of an independent model of the format.

// The 128 bits and their form in memory; then the user permissions, the permissions, the reserved bits and the flag;
// the object type, L, T and B; and the address.
pub static FIELDS: [(
    (u128, u128),
    (u8, u16, u8, bool),
    (u32, bool, u16, u16),
    u64,
); 30] = [
    (
        (
            0xf61fffff98c0060000000014c93a8d,
            0xf60000039940020000000014c93a8d,
        ),
        (0, 246, 0, false),
        (262143, true, 3683, 6),
        0x14c93a8d,
    ),
    (
        (
            0xfbc3a0be6d932ca269b6fdc48efd4f1e,
            0xfbc3bf419192aca669b6fdc48efd4f1e,
        ),
        (15, 3011, 2, true),
        (6093, true, 1612, 11426),
        0x69b6fdc48efd4f1e,
    ),
    (
        (
            0x34d883c522efe87006819210586664a5,
            0x34d89c3adeee687406819210586664a5,
        ),
        (3, 1240, 2, false),
        (30884, false, 3007, 10352),
        0x6819210586664a5,
    ),
    (
        (
            0x962f2e93a202af316c4127b3aa9fb8b3,
            0x962f316c5e032f356c4127b3aa9fb8b3,
        ),
        (9, 1583, 0, true),
        (119412, false, 2058, 12081),
        0x6c4127b3aa9fb8b3,
    ),
    (
        (
            0x4438471cd41f26c3651954c4e877e277,
            0x443858e3281ea6c7651954c4e877e277,
        ),
        (4, 1080, 1, false),
        (58266, true, 124, 9923),
        0x651954c4e877e277,
    ),
    (
        (
            0x45d2a159126cd5ff0b925849eff90d3c,
            0x45d2bea6ee6d55fb0b925849eff90d3c,
        ),
        (4, 1490, 2, true),
        (11042, false, 2483, 5631),
        0xb925849eff90d3c,
    ),
    (
        (
            0xa77e4d5fec4e1ad1c4cb611062869515,
            0xa77e52a0104f9ad5c4cb611062869515,
        ),
        (10, 1918, 1, false),
        (109565, true, 312, 6865),
        0xc4cb611062869515,
    ),
    (
        (
            0x9321ffff83a80ea0000014b0a8bc0e9,
            0x9320000043b00ee0000014b0a8bc0e9,
        ),
        (0, 2354, 0, false),
        (262143, false, 234, 234),
        0x14b0a8bc0e9,
    ),
    (
        (
            0x516fb9d153e16464538299a2b8bd8de8,
            0x516fa62eafe0e460538299a2b8bd8de8,
        ),
        (5, 367, 2, true),
        (211498, false, 3973, 9316),
        0x538299a2b8bd8de8,
    ),
    (
        (
            0x87ca1a5d1426bf513a7aabb1058861cb,
            0x87ca05a2e8273f553a7aabb1058861cb,
        ),
        (8, 1994, 0, false),
        (215970, true, 154, 16209),
        0x3a7aabb1058861cb,
    ),
    (
        (
            0xfb3b38ce650fdcd5a564658819816f57,
            0xfb3b2731990e5cd1a564658819816f57,
        ),
        (15, 2875, 0, true),
        (203212, true, 1087, 7381),
        0xa564658819816f57,
    ),
    (
        (
            0x4395cafa5a8f1aad93e30cee669aaa31,
            0x4395d505a68e9aa993e30cee669aaa31,
        ),
        (4, 917, 3, false),
        (89931, false, 2620, 6829),
        0x93e30cee669aaa31,
    ),
    (
        (
            0xe89087a979c91c5314fa1a61eb6e0777,
            0xe890985685c89c5714fa1a61eb6e0777,
        ),
        (14, 2192, 2, false),
        (62767, false, 1828, 7251),
        0x14fa1a61eb6e0777,
    ),
    (
        (
            0x5f2a195ca62c637d7d7d259de2a3ceb2,
            0x5f2a06a35a2de3797d7d259de2a3ceb2,
        ),
        (5, 3882, 0, false),
        (207764, true, 2225, 9085),
        0x7d7d259de2a3ceb2,
    ),
    (
        (
            0x2e2300490ef76292d8635ff11361ad04,
            0x2e231fb6f2f6e296d8635ff11361ad04,
        ),
        (2, 3619, 0, false),
        (2337, true, 3037, 8850),
        0xd8635ff11361ad04,
    ),
    (
        (
            0xa8efeaa8a25d3f26b0003e0e2d56357e,
            0xa8eff5575e5cbf22b0003e0e2d56357e,
        ),
        (10, 2287, 3, true),
        (87316, false, 2420, 16166),
        0xb0003e0e2d56357e,
    ),
    (
        (
            0x4c91ffcb05cd94b2e7292f9ab851577d,
            0x4c91e034f9cc14b6e7292f9ab851577d,
        ),
        (4, 3217, 3, true),
        (260448, true, 1846, 5298),
        0xe7292f9ab851577d,
    ),
    (
        (
            0x3724ebca28d95fadaf5a53ed8f4a7232,
            0x3724f435d4d8dfa9af5a53ed8f4a7232,
        ),
        (3, 1828, 3, true),
        (96581, false, 869, 8109),
        0xaf5a53ed8f4a7232,
    ),
    (
        (
            0xce7fd3041c741ff193d5d3498f35cfd,
            0xce7e2cfbdc6c1fb193d5d3498f35cfd,
        ),
        (0, 3303, 3, true),
        (239112, false, 1821, 511),
        0x193d5d3498f35cfd,
    ),
    (
        (
            0x4b82b01f375a6ca0dd8fe09639ade609,
            0x4b82afe0cb5beca4dd8fe09639ade609,
        ),
        (4, 2946, 2, true),
        (132070, true, 3433, 11424),
        0xdd8fe09639ade609,
    ),
    (
        (
            0x9dd91e074dea733983b0051d311acea6,
            0x9dd901f8b1ebf33d83b0051d311acea6,
        ),
        (9, 3545, 0, false),
        (245993, true, 1961, 13113),
        0x83b0051d311acea6,
    ),
    (
        (
            0xa1f7a9986a6ffd1544a70d82a900b768,
            0xa1f7b667966e7d1144a70d82a900b768,
        ),
        (10, 503, 2, true),
        (78605, false, 2495, 15637),
        0x44a70d82a900b768,
    ),
    (
        (
            0xcb8613f7df926efb553e242665c8c4e6,
            0xcb860c082393eeff553e242665c8c4e6,
        ),
        (12, 2950, 0, false),
        (163579, true, 3657, 12027),
        0x553e242665c8c4e6,
    ),
    (
        (
            0x41c738db5595c885471ce4c528b23bf0,
            0x41c72724a9944881471ce4c528b23bf0,
        ),
        (4, 455, 0, true),
        (203626, true, 1623, 2181),
        0x471ce4c528b23bf0,
    ),
    (
        (
            0xa67eaf60049f2c03eec597a36768f092,
            0xa67eb09ff89eac07eec597a36768f092,
        ),
        (10, 1662, 2, true),
        (125952, true, 636, 11267),
        0xeec597a36768f092,
    ),
    (
        (
            0x9b2186cbed4cf18f8bfea846ff6060c3,
            0x9b219934114d718b8bfea846ff6060c3,
        ),
        (9, 2849, 2, false),
        (55677, true, 1331, 12687),
        0x8bfea846ff6060c3,
    ),
    (
        (
            0xb249916aac296fd3d3357d127d56d212,
            0xb2498e955028efd7d3357d127d56d212,
        ),
        (11, 585, 2, false),
        (142677, true, 165, 12243),
        0xd3357d127d56d212,
    ),
    (
        (
            0x6dcfb5152f1b6fc2ca2ebd4cd863c8e3,
            0x6dcfaaead31aefc6ca2ebd4cd863c8e3,
        ),
        (6, 3535, 2, true),
        (172709, true, 3181, 12226),
        0xca2ebd4cd863c8e3,
    ),
    (
        (
            0xcef27b3bbcf48c82313d9b114301f3df,
            0xcef264c440f50c86313d9b114301f3df,
        ),
        (12, 3826, 1, true),
        (223095, true, 978, 3202),
        0x313d9b114301f3df,
    ),
    (
        (
            0x5cec99f7b0dd1b2604cefa8b5112d984,
            0x5cec86084cdc9b2204cefa8b5112d984,
        ),
        (5, 3308, 2, false),
        (212726, false, 884, 6950),
        0x4cefa8b5112d984,
    ),
];
