// The archive libsalvage.a: the calls of salvage.h, by the promises of crate salvage.
#![tactic(auto)]

ghost use Rattle.salvagerules.specs.Calls.{SalvagePromise, SalvageReportPromise};

#[unsafe(no_mangle)]
pub extern "C" fn castribba_salvage(image: &[u8], out: &mut [u8]) -> u64
    ensures { SalvagePromise image.now out.old out.new result }
{
    salvage::castribba_salvage(image, out)
}

#[unsafe(no_mangle)]
pub extern "C" fn castribba_salvage_report(image: &[u8], out: &mut [u8]) -> u64
    ensures { SalvageReportPromise image.now out.old out.new result }
{
    salvage::castribba_salvage_report(image, out)
}
