#![tactic(auto)]
// The two addresses. Behind a concentrator they differ, so neither is ever used where the other is meant:
// they are separate types, and no function turns one into the other. Two of one type are compared by `==`.

// The address of the card on its line.
#[derive(Clone, Copy, Debug, PartialEq, Eq)]
pub struct LinkAddress(pub u16);

// The address of a metering point.
#[derive(Clone, Copy, Debug, PartialEq, Eq)]
pub struct PointAddress(pub u16);
