#![tactic(auto)]
// The collector for C: a static library with the symbols `collect` and `collect_character`. Each calls the function of its name in the crate
// `collector` and promises what that one promises.
ghost use Rattle.profile.specs.declared.Profile.TheVariants.{Ten, Eleven};
ghost use Rattle.collector.specs.Calls.{PutIn};

use collector::Collector;

// An octet put into a collector that is lent.
#[unsafe(no_mangle)]
pub extern "C" fn collect(collector: &mut Collector, octet: u8)
    ensures { PutIn Ten collector.old octet collector.new }
{
    collector::collect(collector, octet);
}

// A character put into a collector that is lent.
#[unsafe(no_mangle)]
pub extern "C" fn collect_character(collector: &mut Collector, octet: u8, parity: bool)
    ensures { PutIn Eleven collector.old (record { octet = octet; parity = parity }) collector.new }
{
    collector::collect_character(collector, octet, parity);
}
