// The plain tree's calls (request 12) for C, for tests and measurements: an export for each call of crate plain_camera,
// under its name, with its clauses.
#![tactic(auto)]

ghost use Rattle.std.specs.Prelude.{◌≡◌};
ghost use Rattle.geometry.specs.Geometry.{plain};
ghost use Rattle.model.specs.Calls.{format, lookup};
ghost use Rattle.model.specs.Plain.{plain_insert, plain_delete};
ghost use Rattle.camera.specs.Camera.{returned};

#[unsafe(no_mangle)]
pub extern "C" fn plain_format(image: &mut [u8], res: &mut [u8]) -> u32
    ensures answer { result ≡ (returned (format plain image.old) image.old res.old).answer }
    ensures image { image.new ≡ (returned (format plain image.old) image.old res.old).image }
    ensures res { res.new ≡ (returned (format plain image.old) image.old res.old).result }
{
    plain_camera::plain_format(&mut *image, &mut *res)
}

#[unsafe(no_mangle)]
pub extern "C" fn plain_lookup(image: &[u8], key: u32, res: &mut [u8]) -> u32
    ensures answer { result ≡ (returned (lookup plain image.now key) image.now res.old).answer }
    ensures res { res.new ≡ (returned (lookup plain image.now key) image.now res.old).result }
{
    plain_camera::plain_lookup(image, key, &mut *res)
}

#[unsafe(no_mangle)]
pub extern "C" fn plain_insert(
    image: &mut [u8],
    key: u32,
    address: u32,
    allowance: u32,
    res: &mut [u8],
) -> u32
    ensures answer { result ≡ (returned (plain_insert plain image.old key address allowance) image.old
        res.old).answer }
    ensures image { image.new ≡ (returned (plain_insert plain image.old key address allowance) image.old
        res.old).image }
    ensures res { res.new ≡ (returned (plain_insert plain image.old key address allowance) image.old
        res.old).result }
{
    plain_camera::plain_insert(&mut *image, key, address, allowance, &mut *res)
}

#[unsafe(no_mangle)]
pub extern "C" fn plain_delete(image: &mut [u8], key: u32, allowance: u32, res: &mut [u8]) -> u32
    ensures answer { result ≡ (returned (plain_delete plain image.old key allowance) image.old
        res.old).answer }
    ensures image { image.new ≡ (returned (plain_delete plain image.old key allowance) image.old
        res.old).image }
    ensures res { res.new ≡ (returned (plain_delete plain image.old key allowance) image.old res.old).result }
{
    plain_camera::plain_delete(&mut *image, key, allowance, &mut *res)
}
