// The plain tree's calls (request 12) as C makes them, for tests and measurements: no part of the library. Numbers, the
// lent image, and a lent result buffer of 24 bytes as crate camera has it; a shorter one gives 1, and nothing changes.
// Crate plain_camera_c exports them.
#![tactic(auto)]

ghost use Rattle.std.specs.Prelude.{◌≡◌};
ghost use Rattle.geometry.specs.Geometry.{plain};
ghost use Rattle.model.specs.Calls.{format, lookup};
ghost use Rattle.model.specs.Plain.{plain_insert, plain_delete};
ghost use Rattle.camera.specs.Camera.{returned};

pub fn plain_format(image: &mut [u8], res: &mut [u8]) -> u32
    ensures answer { result ≡ (returned (format plain image.old) image.old
        res.old).answer }
    ensures image { image.new ≡ (returned (format plain image.old) image.old
        res.old).image }
    ensures res { res.new ≡ (returned (format plain image.old) image.old
        res.old).result }
{
    if res.len() < 24 {
        return 1;
    }
    let a = plain_calls::format(&mut *image);
    camera::report(&mut *res, a)
}

pub fn plain_lookup(image: &[u8], key: u32, res: &mut [u8]) -> u32
    ensures answer { result ≡ (returned (lookup plain image.now key) image.now
        res.old).answer }
    ensures res { res.new ≡ (returned (lookup plain image.now key) image.now
        res.old).result }
{
    if res.len() < 24 {
        return 1;
    }
    let a = plain_calls::lookup(image, key);
    camera::report(&mut *res, a)
}

pub fn plain_insert(image: &mut [u8], key: u32, address: u32, allowance: u32, res: &mut [u8]) -> u32
    ensures answer { result ≡ (returned (plain_insert plain image.old key address allowance)
        image.old res.old).answer }
    ensures image { image.new ≡ (returned (plain_insert plain image.old key address allowance)
        image.old res.old).image }
    ensures res { res.new ≡ (returned (plain_insert plain image.old key address allowance)
        image.old res.old).result }
{
    if res.len() < 24 {
        return 1;
    }
    let a = plain_calls::insert(&mut *image, key, address, allowance);
    camera::report(&mut *res, a)
}

pub fn plain_delete(image: &mut [u8], key: u32, allowance: u32, res: &mut [u8]) -> u32
    ensures answer { result ≡ (returned (plain_delete plain image.old key allowance) image.old
        res.old).answer }
    ensures image { image.new ≡ (returned (plain_delete plain image.old key allowance)
        image.old res.old).image }
    ensures res { res.new ≡ (returned (plain_delete plain image.old key allowance)
        image.old res.old).result }
{
    if res.len() < 24 {
        return 1;
    }
    let a = plain_calls::delete(&mut *image, key, allowance);
    camera::report(&mut *res, a)
}
