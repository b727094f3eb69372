// The counter in C's calling form: the function of `counter`, under the same name and with the same clauses (include/desk.h declares it). It stands
// apart from `desk_c`, so that the code that rules cases is compiled as if nobody explained them.
#![tactic(auto)]

ghost use Rattle.std.specs.Prelude.{◌≡◌, length};
ghost use Rattle.wire.specs.Laid.{laid};
ghost use Rattle.explanation.specs.Explained.{explained_of};

// Explains a case, for the desk alone: how many bytes of the buffer are the text.
#[unsafe(no_mangle)]
pub extern "C" fn desk_explain_case(case: &[u8], out: &mut [u8; 20480]) -> u64
    ensures { (result ≡ length (explained_of case.now)) × (out.new ≡ laid (explained_of case.now) out.old) }
{
    counter::desk_explain_case(case, out)
}
