// The counter for other programs: one function, which stands in C's calling form in `counter_c`. It stands apart from `desk`, in a library of its own,
// so that the code that rules cases is compiled as if nobody explained them. It passes its callee's promise on, and asks nothing beyond what its
// types say.
#![tactic(auto)]

ghost use Rattle.std.specs.Prelude.{◌≡◌, length};
ghost use Rattle.wire.specs.Laid.{laid};
ghost use Rattle.explanation.specs.Explained.{explained_of};

// Explains a case, for the desk alone: how many bytes of the buffer are the text.
pub fn desk_explain_case(case: &[u8], out: &mut [u8; 20480]) -> u64
    ensures { (result ≡ length (explained_of case.now)) × (out.new ≡ laid (explained_of case.now) out.old) }
{
    explanation::explain_case(case, out) as u64
}
