// The archive libloader.a: the calls of loader.h, by the promises of crate loader.
#![tactic(auto)]

ghost use Rattle.loader.specs.Calls.{BayPromise, BaysPromise};

#[unsafe(no_mangle)]
pub extern "C" fn castribba_bay(map: &[u8], bay: u32, out: &mut [u8]) -> u64
    ensures { BayPromise map.now bay out.old out.new result }
{
    loader::castribba_bay(map, bay, out)
}

#[unsafe(no_mangle)]
pub extern "C" fn castribba_bays(map: &[u8], out: &mut [u8]) -> u64
    ensures { BaysPromise map.now out.old out.new result }
{
    loader::castribba_bays(map, out)
}
