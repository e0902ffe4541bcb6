//! The head-end's call as C links it: the library's function under its name, with the same promise.
#![tactic(auto)]

ghost use Rattle.headend.specs.HeadEnd.{HeadEndMeets};

/// Fits a packed still into a budget.
#[unsafe(no_mangle)]
pub extern "C" fn anb_budget(packet: &[u8], budget: u32, keep: &mut [u8]) -> u32
    ensures { HeadEndMeets packet.now budget keep.old result keep.new }
{
    headend::anb_budget(packet, budget, keep)
}
