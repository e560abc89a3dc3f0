//! The requests that replies belong to.

ghost use Rattle.std.specs.Prelude.{◌≡◌};
ghost use Rattle.typing_rules.specs.Rules.{has_request, results_needed, is_number_of};
ghost use Rattle.typing_rules.specs.Names.{known};
ghost use Rattle.typing_rules.specs.Meanings.{types_known};
ghost use Rattle.typing_statements.specs.Requests.{request_of};

use lynx_tree::TypeName;

/// The request that a `reply` belongs to: that of the innermost accept around it, else of its entry.
#[derive(Clone, Copy)]
pub enum Request<'m> {
    /// The module's body, where nothing is asked.
    Outside,
    /// The types of the results of the op that is asked for; None where it is not known.
    Asks(Option<&'m [TypeName]>),
}

/// Whether there is a request.
pub(crate) fn has_request(request: Request) -> bool
    ensures { result ≡ has_request (request_of request.entry) }
{
    match request {
        Request::Outside => false,
        Request::Asks(_) => true,
    }
}

/// The types of the results, where they are known.
pub(crate) fn results_needed(request: Request<'_>) -> Option<&[TypeName]>
    ensures { types_known result ≡ results_needed (request_of request.entry) }
{
    match request {
        Request::Outside => None,
        Request::Asks(results) => results,
    }
}

/// Whether there are as many as there are types, where these are known.
pub fn is_number_of(count: usize, types: Option<&[TypeName]>) -> bool
    ensures { result ≡ is_number_of count (types_known types.entry) }
{
    match types {
        None => true,
        Some(types) => count == types.len(),
    }
}

/// The types, none where they are not known.
pub fn known(types: Option<&[TypeName]>) -> &[TypeName]
    ensures { result.now ≡ known (types_known types.entry) }
{
    match types {
        None => &[],
        Some(types) => types,
    }
}
