// Names that match hosts.

ghost use Rattle.std.specs.Prelude.{◌≡◌, ◌↔◌, IsTrue};
ghost use Rattle.entity_id.specs.Names.{matches, IsMatch};

/// Whether the host matches a name of a naming constraint (OpenID Federation 1.0 section 6.2.2, RFC 5280 section
/// 4.2.1.10). A name with a full stop in front matches each host that ends with the name and has a byte before it at
/// least. Any other name matches the equal host. The case of ASCII letters doesn't count.
#[tactic(auto, unfolding(crate::specs::Names::matches))]
pub fn matches_name(host: &[u8], name: &[u8]) -> bool
    ensures value { result ≡ matches host.now name.now }
    ensures meaning { IsTrue result ↔ IsMatch host.now name.now }
{
    if !name.starts_with(b".") {
        return host.eq_ignore_ascii_case(name);
    }
    if host.len() <= name.len() {
        return false;
    }
    let (_, end) = host.split_at(host.len() - name.len());
    end.eq_ignore_ascii_case(name)
}
