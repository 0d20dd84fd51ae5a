//! The text of `web/settings.json`, as it is.

/// The text.
pub const SETTINGS_JSON: &str = r#"{
  "city": "Rules for shared vehicles",
  "tiles": "",
  "attribution": "",
  "zone": "",
  "operators": {},
  "refresh_seconds": 30
}
"#;
