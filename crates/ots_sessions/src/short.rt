// Whether messages that were read are short: each is, since a message that is read has a limit.
ghost use Rattle.std.specs.Prelude.{◌≡◌, ◌+◌, ◌<◌, ◌≤◌, ◌^◌, All, IsTrue, length};
ghost use Rattle.giop_frames.specs.Encode.{octets_in, octets_in_contexts, octets_in_target};
ghost use Rattle.giop_frames.specs.declared.message.Message.TheVariants as messages;
ghost use Rattle.ots_sessions.specs.Short as limits;
ghost use Rattle.std.specs.List.{list_all};

use giop_frames::{Request, ServiceContext, Target};

/// How many octets a list in a message has at most.
pub const MOST: usize = 1_000_000;

/// How many contexts a message has at most.
const CONTEXTS: usize = 16;

/// Whether a request has few octets.
pub fn is_short_request(request: &Request) -> bool
    ensures exact { result ≡ limits.is_short request.now }
    ensures octets { IsTrue result → octets_in (messages.Request request.now) < 2 ^ 31 }
    ensures body { IsTrue result → length (request.now).body < 2 ^ 31 }
    ensures contexts { IsTrue result → All (λ context. length context.bytes < 2 ^ 31) (request.now).contexts }
{
    let fields = request.operation.bytes().len() <= MOST && request.body.bytes().len() <= MOST;
    fields && is_short_target(&request.target) && are_short(request.contexts.items())
}

fn is_short_target(target: &Target) -> bool
    ensures exact { result ≡ limits.is_short_target target.now }
    ensures few { IsTrue result → octets_in_target target.now ≤ 1000000 }
{
    match target {
        Target::Key(key) => key.bytes().len() <= MOST,
        Target::Profile | Target::Reference => true,
    }
}

/// Whether the contexts are few, and each has few octets.
#[tactic(auto, using(crate::proofs::Contexts::each_short, crate::proofs::Contexts::few_octets))]
fn are_short(contexts: &[ServiceContext]) -> bool
    ensures exact { result ≡ limits.are_short contexts.now }
    ensures each { IsTrue result → All (λ context. length context.bytes < 2 ^ 31) contexts.now }
    ensures together { IsTrue result → length contexts.now + octets_in_contexts contexts.now ≤ 2 ^ 28 }
{
    contexts.len() <= CONTEXTS && is_each_short(contexts)
}

fn is_each_short(contexts: &[ServiceContext]) -> bool
    ensures exact { result ≡ list_all (λ context. limits.is_short_list context.bytes) contexts.now }
    ensures each { IsTrue result → All (λ context. length context.bytes ≤ 1000000) contexts.now }
{
    contexts
        .iter()
        .all(|context| context.bytes.bytes().len() <= MOST)
}
