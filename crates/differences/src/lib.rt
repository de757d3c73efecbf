// What differs between two maps, key by key: the definition of the report, and its laws.
#![tactic(auto)]

// A key with its class: 1 only in the first map, 2 only in the second, 3 in both with another clock or register, and 0 where nothing differs.
#[derive(Clone, Copy)]
pub struct Difference {
    pub class: u8,
    pub key: u32,
}
