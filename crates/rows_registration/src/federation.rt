// What a leaf and its trust anchor publish.

use fed_base::{Alg, Memory, Seq, Text};
use fed_json::{Json, is_whole, read_tree};
use slh_dsa::KeyPair;
use std::alloc::Global;

// The configuration of the leaf, a relying party, whose seeds are the bytes 96 to 143.
const LEAF: &[u8] =
    b"{\"authority_hints\":[\"https://ta.example\"],\"exp\":1800086400,\"iat\":1800000000,\"iss\":\"https://rp.example\",\"jwks\":{\"keys\":[{\"alg\":\"SLH-DSA-SHA2-128s\",\"kid\":\"iif1sWF2bp-0ANJO3YzpiDHWLvDf9tqJJ_bu1trBODg\",\"kty\":\"AKP\",\"pub\":\"gIGCg4SFhoeIiYqLjI2Oj9jBECynG2yIJA4SuuZ7Glc\"}]},\"metadata\":{\"openid_relying_party\":{\"application_type\":\"web\"}},\"sub\":\"https://rp.example\"}";

// The configuration of the trust anchor, whose seeds are the bytes 0 to 47.
const ANCHOR: &[u8] =
    b"{\"exp\":1800086400,\"iat\":1800000000,\"iss\":\"https://ta.example\",\"jwks\":{\"keys\":[{\"alg\":\"SLH-DSA-SHA2-128s\",\"kid\":\"GvnrvpnonJaEuzIqndKE_vyxxLqvy2IkYUXouYZQjAg\",\"kty\":\"AKP\",\"pub\":\"ICEiIyQlJicoKSorLC0uL5kM5imHkrEohGqOSjpolUw\"}]},\"metadata\":{\"federation_entity\":{\"federation_fetch_endpoint\":\"https://ta.example/fetch\"}},\"sub\":\"https://ta.example\"}";

// The trust anchor's statement about the leaf.
const STATEMENT: &[u8] =
    b"{\"exp\":1800086400,\"iat\":1800000000,\"iss\":\"https://ta.example\",\"jwks\":{\"keys\":[{\"alg\":\"SLH-DSA-SHA2-128s\",\"kid\":\"iif1sWF2bp-0ANJO3YzpiDHWLvDf9tqJJ_bu1trBODg\",\"kty\":\"AKP\",\"pub\":\"gIGCg4SFhoeIiYqLjI2Oj9jBECynG2yIJA4SuuZ7Glc\"}]},\"sub\":\"https://rp.example\"}";

// The key whose seeds are 48 bytes that rise by one from this.
fn key_from(first: u8) -> KeyPair {
    let mut seeds = [0; 48];
    let mut next = first;
    for seed in seeds.iter_mut() {
        *seed = next;
        next = next.wrapping_add(1);
    }
    KeyPair::from_seeds(Alg::Small, &seeds)
}

// The tree sealed as an entity statement, and no byte where it can't be.
fn sealed(alloc: Global, keys: &KeyPair, tree: &Json) -> Result<Text, Memory> {
    if !is_whole(tree) || !matches!(tree, Json::Object(_)) {
        return Ok(Text::new(alloc));
    }
    let typ = Text::of(alloc, b"entity-statement+jwt")?;
    sealed::seal(alloc, keys, &typ, tree)
}

// The claims sealed.
fn sealed_claims(alloc: Global, keys: &KeyPair, claims: &[u8]) -> Result<Text, Memory> {
    match read_tree(alloc, claims) {
        Ok(tree) => {
            let text = sealed(alloc, keys, &tree);
            drop(tree);
            text
        }
        Err(_) => Ok(Text::new(alloc)),
    }
}

/// The leaf's configuration, the trust anchor's, and its statement about the leaf.
pub(crate) fn published(alloc: Global) -> Result<Seq<Text>, Memory> {
    let leaf = key_from(96);
    let anchor = key_from(0);
    let mut texts = Seq::new(alloc);
    texts.push(sealed_claims(alloc, &leaf, LEAF)?)?;
    texts.push(sealed_claims(alloc, &anchor, ANCHOR)?)?;
    texts.push(sealed_claims(alloc, &anchor, STATEMENT)?)?;
    Ok(texts)
}
