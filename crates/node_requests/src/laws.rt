// Laws over the definitions alone.

ghost use Rattle.std.specs.Prelude.{◌≡◌, List, ℕ, false, true};
ghost use Rattle.http_messages.specs.declared.request.Request.{Request};
ghost use Rattle.node_requests.specs.declared.asked.Asked.{Asked};
ghost use Rattle.node_requests.specs.declared.place.Place.{Place};
ghost use Rattle.node_requests.specs.Places.{place_at};
ghost use Rattle.node_requests.specs.Requests.{AsksFor, kind_of};

/// What holds of requests. It does nothing.
pub fn requests()
    // At a place a request asks for one thing.
    ensures one { (place : Place) (r : Request) (a b : Asked) → AsksFor place r a → AsksFor place r b → a ≡ b }
    // Its kind is that of its method and its path, whatever its parameters and its body are.
    ensures one_kind { (place : Place) (r s : Request) (a b : Asked) → r.method ≡ s.method → r.path ≡ s.path
        → AsksFor place r a → AsksFor place s b → kind_of a ≡ kind_of b }
    // A node that resolves is asked all that it would be asked if it didn't.
    ensures more { (path : List ℕ) (r : Request) (a : Asked) → AsksFor (place_at path false) r a → AsksFor (place_at path true) r a }
{}
