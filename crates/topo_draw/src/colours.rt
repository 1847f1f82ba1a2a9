/// The colours of faces.
const FACES: [&str; 12] = [
    "#c6dcef", "#f7dcb4", "#cde8c5", "#ecc9d6", "#dcd3ee", "#f4efb4", "#bfe5e1", "#f3cdbd",
    "#d9dfc0", "#cfd6dd", "#e6d6c3", "#d3ecd9",
];

/// The colours of features, which are stronger.
const FEATURES: [&str; 8] = [
    "#e8590c", "#1971c2", "#2f9e44", "#9c36b5", "#e0a800", "#c2255c", "#0c8599", "#5c4033",
];

/// The colour of a face, by its id. Each dozen of ids begins with another one.
pub fn face_colour(id: u32) -> &'static str {
    FACES[((id % 12 + id / 12 * 5) % 12) as usize]
}

/// The colour of a feature, by its id.
pub fn feature_colour(id: u32) -> &'static str {
    FEATURES[(id % 8) as usize]
}
